// Statements over one table in chunks of two rows, and the lines of their notes, written by hand.
ghost use Rattle.std.specs.Prelude.{◌≡◌, ◌≤◌, ◌<◌, ◌^◌, All, IfOk, length};
ghost use Rattle.table_core.specs.Value.{places_of};
ghost use Rattle.inspect_notes.specs.Profiles.{IsOfRecords};
ghost use Rattle.inspect_notes.specs.Zones.{AreZonesOf};

use crate::loading::loaded;
use csv_load::Loaded;
use filter_zones::ChunkZones;
use inspect_notes::{note_of, write_note, zones_of_table};
use piece_format::Layout;
use std::alloc::Global;
use std::process::Abort;
use std::test::Fail;
use table_core::{Bytes, Memory};

// Chunks of the rows 1 and 2, 3 and 4, and 5. The texts of `c` are a to e, so its codes are 0 to 4.
const TABLE: &[u8] = b"a,b,c\n1,9,b\n2,,d\n3,9,a\n4,,e\n5,9,c\n";

const NOTES: &[(&[u8], &[u8])] = &[
    (
        b"select a, c from t where a < 3 limit 2",
        b"7: SELECT \"a\" , \"c\" FROM \"t\" WHERE \"a\" < 3 LIMIT 2\n  reads \"a\", \"c\"\n  chunks 1 of 3\n",
    ),
    (
        b"SELECT COUNT(*) FROM t",
        b"7: SELECT COUNT ( * ) FROM \"t\"\n  reads \"a\"\n  chunks 3 of 3\n  \
nothing is left out: there is no WHERE\n",
    ),
    (
        b"SELECT SUM(b), MIN(b) FROM t WHERE b = 9 AND c > 'a'",
        b"7: SELECT SUM ( \"b\" ) , MIN ( \"b\" ) FROM \"t\" WHERE \"b\" = 9 AND \"c\" > 'a'\n  \
reads \"b\", \"c\"\n  chunks 3 of 3\n  \
nothing is left out: \"b\" is compared with a number that its zone in each chunk allows\n  \
nothing is left out: \"c\" is compared with a text that its zone in each chunk allows\n",
    ),
    (
        b"SELECT a FROM t WHERE a < 2 OR b IS NOT NULL LIMIT 1",
        b"7: SELECT \"a\" FROM \"t\" WHERE \"a\" < 2 OR \"b\" IS NOT NULL LIMIT 1\n  reads \"a\", \"b\"\n  chunks 3 of 3\n  \
nothing is left out: one side of an OR, which begins with \"b\", is allowed in each chunk\n",
    ),
    (
        b"SELECT a FROM t WHERE NOT (a >= 3 AND a < 3) LIMIT 1",
        b"7: SELECT \"a\" FROM \"t\" WHERE NOT ( \"a\" >= 3 AND \"a\" < 3 ) LIMIT 1\n  reads \"a\"\n  chunks 3 of 3\n  \
nothing is left out: the one side or the other of an AND below NOT may be false in each chunk\n",
    ),
    (
        b"SELECT a FROM t WHERE NOT (b IS NULL AND a < 3) LIMIT 1",
        b"7: SELECT \"a\" FROM \"t\" WHERE NOT ( \"b\" IS NULL AND \"a\" < 3 ) LIMIT 1\n  reads \"a\", \"b\"\n  chunks 3 of 3\n  \
nothing is left out: one side of an AND below NOT, which begins with \"b\", may be false in each chunk\n",
    ),
    (
        b"SELECT a FROM t WHERE a < 3 OR a >= 3 LIMIT 1",
        b"7: SELECT \"a\" FROM \"t\" WHERE \"a\" < 3 OR \"a\" >= 3 LIMIT 1\n  reads \"a\"\n  chunks 3 of 3\n  \
nothing is left out: the sides of an OR together are allowed in each chunk\n",
    ),
    (
        b"SELECT a FROM t WHERE NOT b IS NULL LIMIT 1",
        b"7: SELECT \"a\" FROM \"t\" WHERE NOT \"b\" IS NULL LIMIT 1\n  reads \"a\", \"b\"\n  chunks 3 of 3\n  \
nothing is left out: \"b\" is tested for NULL, which its zone in each chunk allows\n",
    ),
    (
        b"SELECT a FROM t WHERE a < 0 OR a > 5 LIMIT 1",
        b"7: SELECT \"a\" FROM \"t\" WHERE \"a\" < 0 OR \"a\" > 5 LIMIT 1\n  reads \"a\"\n  chunks 0 of 3\n",
    ),
];

// The zones of a table of few rows, in chunks of two.
fn zoned(rt: &impl Abort, alloc: Global, loaded: &Loaded) -> Result<Vec<ChunkZones>, Memory>
    requires { IsOfRecords loaded.now }
    ensures { IfOk result (λ zones. AreZonesOf loaded.now.table.columns loaded.now.dicts.items zones.items) }
{
    assert!(rt; loaded.table.len() < 2000);
    let zones = zones_of_table(alloc, loaded, Layout::Row, 2)?;
    Ok(zones)
}

fn told(alloc: Global, loaded: &Loaded, zones: &[ChunkZones], text: &[u8]) -> Result<Bytes, Fail>
    requires short { length text.now < 2 ^ 32 }
    requires few { length loaded.now.table.columns ≤ 16 }
    requires places { All (λ c. places_of c.kind ≤ 9) loaded.now.table.columns }
    requires dicts { length loaded.now.dicts.items ≡ length loaded.now.table.columns }
    requires zones { AreZonesOf loaded.now.table.columns loaded.now.dicts.items zones.now }
{
    let schema = loaded.table.schema();
    let note = note_of(alloc, text, schema, &loaded.dicts, zones)?;
    Ok(write_note(alloc, 7, schema, &note)?)
}

#[test]
fn statements_are_told_by_their_lines(rt: HostRuntime) -> Result<(), Fail> {
    let alloc = rt.alloc();
    let loaded = loaded(&rt, alloc, TABLE)?;
    let zones = zoned(&rt, alloc, &loaded)?;
    for (text, lines) in NOTES {
        assert!(rt; text.len() < 1000);
        let told = told(alloc, &loaded, &zones, text)?;
        assert!(rt; told.as_slice() == *lines, "{text:?}");
    }
    Ok(())
}

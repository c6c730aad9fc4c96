ghost use Rattle.std.specs.Prelude.{◌≡◌};
ghost use Rattle.run_inputs.specs.GeneratedBatch.{batch_text};

/// The text of the generated batch: eight statements over a generated table.
pub fn batch_text() -> &'static str
    ensures { result.now ≡ batch_text }
{
    "SELECT COUNT(*) FROM t;\n\
SELECT SUM(val), COUNT(val), MIN(val), MAX(val) FROM t;\n\
SELECT grp, COUNT(*), SUM(val) FROM t GROUP BY grp;\n\
SELECT COUNT(*) FROM t WHERE id < 1000;\n\
SELECT tag, MAX(id) FROM t WHERE val >= 0 GROUP BY tag;\n\
SELECT SUM(val) FROM t WHERE id >= 50000 AND id < 150000;\n\
SELECT COUNT(*) FROM t WHERE NOT val > 500 OR tag IS NULL;\n\
SELECT grp, tag, COUNT(*) FROM t WHERE val IS NOT NULL GROUP BY grp, tag;\n"
}

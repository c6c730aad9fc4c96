// An input and an output that fail in the middle.
use crate::exports::PLAIN;
use prepare_rules::{Failure, prepare};
use std::io::{self, ErrorKind, Read, Write};

// Gives its bytes, and then fails.
#[derive(Drop)]
struct Torn {
    bytes: &'static [u8],
}

impl Read for Torn {
    fn read(&mut self, buf: &mut [u8]) -> io::Result<usize> {
        if self.bytes.is_empty() {
            return Err(io::Error::from(ErrorKind::BrokenPipe));
        }
        self.bytes.read(buf)
    }
}

// Takes nothing.
#[derive(Drop)]
struct Full;

impl Write for Full {
    fn write(&mut self, _buf: &[u8]) -> io::Result<usize> {
        Err(io::Error::from(ErrorKind::StorageFull))
    }

    fn flush(&mut self) -> io::Result<()> {
        Ok(())
    }
}

#[test]
fn the_input_fails(rt: HostRuntime) {
    let torn = Torn {
        bytes: b"a,b\n1,2\n3,",
    };
    let alloc = rt.alloc();
    let made = prepare(alloc, &PLAIN, torn, Vec::new(alloc));
    assert!(rt; matches!(made, Err(Failure::Input)));
}

#[test]
fn the_output_fails(rt: HostRuntime) {
    let export: &[u8] = b"a,b\n1,2\n";
    let made = prepare(rt.alloc(), &PLAIN, export, Full);
    assert!(rt; matches!(made, Err(Failure::Output)));
}

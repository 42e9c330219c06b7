//! A reader and a writer that fail in the midst.
use cli_common::{Input, ListInput, Status};
use desk_cli::replay;
use std::alloc::Global;
use std::io::{self, BufReader, Read, Write};
use std::process::Abort;
use std::test::Fail;

const BUILDING: &str =
    "zone = \"UTC0\"\n[[point]]\nname = \"LIGHT\"\nkind = \"binary\"\ndefault = 0\n[[panel]]\nname = \"P1\"\npoints = [\"LIGHT\"]\npriorities = [8]\n";

const LINE: &str =
    "{\"number\":1,\"panel\":\"P1\",\"point\":\"LIGHT\",\"priority\":8,\"value\":1}\n";

const REPLY: &str = "{\"answer\":\"done\",\"number\":1,\"present\":1,\"priority\":8}\n";

const PRINTED: &str =
    "{\"answer\":\"done\",\"number\":1,\"present\":1,\"priority\":8}\nPOINT LIGHT                                      1  8\n";

/// A list that gives its text and then fails.
#[derive(Drop)]
struct Torn {
    text: &'static str,
}

impl Read for Torn {
    fn read(&mut self, buffer: &mut [u8]) -> io::Result<usize> {
        if self.text.is_empty() {
            return Err(io::Error::from(io::ErrorKind::ConnectionReset));
        }
        let taken = self.text.as_bytes().read(buffer)?;
        self.text = "";
        Ok(taken)
    }
}

/// An output that takes a number of bytes and then fails, at most ten in one write.
#[derive(Drop)]
struct Closing {
    taken: Vec<u8>,
    left: usize,
}

impl Write for Closing {
    fn write(&mut self, bytes: &[u8]) -> io::Result<usize> {
        if self.left == 0 {
            return Err(io::Error::from(io::ErrorKind::BrokenPipe));
        }
        let count = bytes.len().min(self.left).min(10);
        self.taken.extend_from_slice(&bytes[..count])?;
        self.left -= count;
        Ok(count)
    }

    fn flush(&mut self) -> io::Result<()> {
        Ok(())
    }
}

/// A run over the building and a list; what it prints is in `out`.
fn run<D: Read + Drop, W: Write>(
    alloc: Global,
    list: D,
    out: &mut W,
    fault: &mut Vec<u8>,
) -> Status {
    let file = Input {
        path: "building.toml",
        reader: Ok(BUILDING.as_bytes()),
    };
    let list = ListInput {
        path: "list.jsonl",
        open: || BufReader::new(alloc, list),
    };
    replay(alloc, file, list, None, None, out, fault)
}

#[test]
fn the_replies_stand_where_the_list_can_no_longer_be_read(rt: HostRuntime) -> Result<(), Fail> {
    let (mut out, mut fault) = (Vec::new(rt.alloc()), Vec::new(rt.alloc()));
    let status = run(rt.alloc(), Torn { text: LINE }, &mut out, &mut fault);
    assert!(rt; status == Status::Fault);
    assert!(rt; out.as_slice() == REPLY.as_bytes());
    assert!(rt; fault.as_slice() == b"desk: cannot read list.jsonl\n".as_slice());
    Ok(())
}

fn expect_cut(rt: &impl Abort, alloc: Global, left: usize) -> Result<(), Fail> {
    let taken = Vec::new(alloc);
    let (mut out, mut fault) = (Closing { taken, left }, Vec::new(alloc));
    let status = run(alloc, LINE.as_bytes(), &mut out, &mut fault);
    assert!(rt; status == Status::Fault);
    assert!(rt; fault.as_slice() == b"desk: cannot write\n".as_slice());
    assert_eq!(rt; out.taken.len(), left);
    assert!(rt; PRINTED.as_bytes().starts_with(out.taken.as_slice()));
    Ok(())
}

#[test]
fn a_beginning_is_printed_where_the_output_fails(rt: HostRuntime) -> Result<(), Fail> {
    for left in [0, 10, 54, 100] {
        expect_cut(&rt, rt.alloc(), left)?;
    }
    Ok(())
}

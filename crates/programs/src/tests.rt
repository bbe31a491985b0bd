// That calls succeed, and the text of an error, on examples.
use crate::exit::exit_code;
use crate::input::{read_at_most, tell_input};
use crate::output::write_line;
use crate::vectors::{table_bytes, tell_line, tell_lines};
use std::alloc::Global;
use std::io;
use std::io::{ErrorKind, Read, Write};
use std::process::ExitCode;
use std::test::Fail;

// Gives one byte, and fails at each later call.
#[derive(Drop)]
struct Failing {
    asked: bool,
}

impl Read for Failing {
    fn read(&mut self, buf: &mut [u8]) -> io::Result<usize> {
        if self.asked || buf.is_empty() {
            return Err(io::Error::from(ErrorKind::TimedOut));
        }
        self.asked = true;
        buf[0] = 1;
        Ok(1)
    }
}

// Counts the calls of `write`; it takes all that it is given, or fails.
#[derive(Drop)]
struct Counting {
    writes: usize,
    fails: bool,
}

impl Write for Counting {
    fn write(&mut self, buf: &[u8]) -> io::Result<usize> {
        self.writes = self.writes.saturating_add(1);
        if self.fails {
            return Err(io::Error::from(ErrorKind::TimedOut));
        }
        Ok(buf.len())
    }

    fn flush(&mut self) -> io::Result<()> {
        Ok(())
    }
}

#[test]
fn reads_as_many_as_asked(rt: HostRuntime) -> Result<(), Fail> {
    let input = [1u8, 2, 3];
    let bytes = read_at_most(rt.alloc(), input.as_slice(), 2)?;
    assert!(rt; bytes.as_slice() == [1u8, 2].as_slice());
    let bytes = read_at_most(rt.alloc(), input.as_slice(), 4)?;
    assert!(rt; bytes.as_slice() == input.as_slice());
    Ok(())
}

#[test]
fn tells_a_read_that_fails(rt: HostRuntime) -> Result<(), Fail> {
    match read_at_most(rt.alloc(), Failing { asked: false }, 4) {
        Ok(_) => Err(Fail::new("a reader that fails was read")),
        Err(e) => {
            let text = format!(in rt.alloc(); "{e:#}")?;
            assert!(rt; text.as_str().starts_with("standard input cannot be read: "));
            Ok(())
        },
    }
}

#[test]
fn tells_of_the_input(rt: HostRuntime) -> Result<(), Fail> {
    let alloc = rt.alloc();
    let mut output = Vec::new(alloc);
    let input = [1u8, 2];
    tell_input(alloc, input.as_slice(), &mut output, |alloc, bytes| {
        format!(in alloc; "{bytes:?}")
    })?;
    assert!(rt; output.as_slice() == b"[1, 2]\n".as_slice());
    Ok(())
}

#[test]
fn tells_by_one_write(rt: HostRuntime) -> Result<(), Fail> {
    let alloc = rt.alloc();
    let input = [1u8, 2];
    let told = |alloc: Global, _: &[u8]| String::from_str(alloc, "two\nlines");
    let mut output = Counting {
        writes: 0,
        fails: false,
    };
    tell_input(alloc, input.as_slice(), &mut output, told)?;
    assert!(rt; output.writes == 1);
    let mut output = Counting {
        writes: 0,
        fails: true,
    };
    assert!(rt; tell_input(alloc, input.as_slice(), &mut output, told).is_err());
    assert!(rt; output.writes == 1);
    Ok(())
}

#[test]
fn writes_a_long_line_whole(rt: HostRuntime) -> Result<(), Fail> {
    let alloc = rt.alloc();
    let mut line = String::new(alloc);
    for _ in 0..1030 {
        line.push('a')?;
    }
    let mut output = Vec::new(alloc);
    write_line(&mut output, &line)?;
    line.push('\n')?;
    assert!(rt; output.as_slice() == line.as_bytes());
    Ok(())
}

#[test]
fn tells_of_lines(rt: HostRuntime) -> Result<(), Fail> {
    let alloc = rt.alloc();
    let told = tell_line(alloc, "01fF", |bytes| format!(in alloc; "{bytes:?}"))?;
    assert!(rt; told.as_str() == "[1, 255]");
    let told = tell_line(alloc, "-", |bytes| format!(in alloc; "{bytes:?}"))?;
    assert!(rt; told.as_str() == "[]");
    let told = tell_line(alloc, "0g", |bytes| format!(in alloc; "{bytes:?}"))?;
    assert!(rt; told.as_str() == "not hexadecimal");
    assert!(rt; table_bytes(alloc, "010")?.is_none());
    assert!(rt; exit_code(&rt, "programs", Ok(())) == ExitCode::SUCCESS);
    Ok(())
}

#[test]
fn tells_of_lines_that_count(rt: HostRuntime) -> Result<(), Fail> {
    let alloc = rt.alloc();
    let mut output = Vec::new(alloc);
    let input = b"# none\n01\n\n  - \r\n \t\n  #\nlast";
    tell_lines(alloc, input.as_slice(), &mut output, |alloc, text| {
        format!(in alloc; "<{text}>")
    })?;
    assert!(rt; output.as_slice() == b"<01>\n<->\n<last>\n".as_slice());
    Ok(())
}

#[test]
fn tells_of_lines_up_to_one_that_is_no_text(rt: HostRuntime) -> Result<(), Fail> {
    let alloc = rt.alloc();
    let mut output = Vec::new(alloc);
    let input = b"01\n\xff\n02\n";
    let outcome = tell_lines(alloc, input.as_slice(), &mut output, String::from_str);
    assert!(rt; outcome.is_err());
    assert!(rt; output.as_slice() == b"01\n".as_slice());
    Ok(())
}

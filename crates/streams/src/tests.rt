// What `complain` says, of which no contract speaks, by a standard error that keeps what it is given.
use super::*;
use arrayvec::ArrayString;
use std::cell::RefCell;
use std::fmt::Write as _;

#[derive(Drop)]
struct Heard {
    text: RefCell<ArrayString<64>>,
}

impl Eprint for Heard {
    fn eprint<D: fmt::Display + Drop>(&self, value: D) -> io::Result<()> {
        let mut text = self.text.try_borrow_mut()?;
        write!(*text, "{value}")?;
        Ok(())
    }

    fn eprintln<D: fmt::Display + Drop>(&self, value: D) -> io::Result<()> {
        self.eprint(value)?;
        self.eprint("\n")
    }
}

fn said(program: &str, why: &impl fmt::Display) -> ArrayString<64> {
    let heard = Heard {
        text: RefCell::new(ArrayString::new()),
    };
    complain(&heard, program, why);
    heard.text.into_inner()
}

#[test]
fn complaints(rt: HostRuntime) {
    let read = said("listing", &Failure::Read);
    assert_eq!(rt; read.as_str(), "listing: cannot read\n");
    let write = said("annex", &Failure::Write);
    assert_eq!(rt; write.as_str(), "annex: cannot write\n");
    let long = said("vectors", &"more than 327,679 bytes");
    assert_eq!(rt; long.as_str(), "vectors: more than 327,679 bytes\n");
}

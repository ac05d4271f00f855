// A run of what the crate hands out.
ghost use Rattle.std.specs.Prelude.{◌+◌, ◌≤◌, length};
ghost use Rattle.overlay.specs.Overlay.{Written};
ghost use Rattle.text.specs.Text.{decimal_and};

use super::*;

// What the clauses of a text in lent bytes come to.
fn put_decimal_and(out: &mut [u8], offset: usize, n: u64, after: u8) -> usize
    requires { offset + 21 ≤ length out.old }
    ensures written { Written out.old offset (decimal_and n after) out.new result }
    ensures upper_bound { result ≤ offset + 21 }
{
    let mut text = LentText::at(out, offset);
    text.put_decimal_and(n, after);
    text.end()
}

// What stands before the offset and behind the end stays.
#[test]
fn text_in_lent_bytes(rt: HostRuntime) {
    let mut bytes = [b'.'; 24];
    let end = put_decimal_and(&mut bytes, 2, 50, b'\n');
    assert_eq!(rt; end, 5);
    assert_eq!(rt; bytes.as_slice(), b"..50\n...................".as_slice());
}

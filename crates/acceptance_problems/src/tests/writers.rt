use machine_data::OutOfMemory;
use writing::{
    Text, push_at, push_both, push_integer, push_last, push_line, push_number, push_signed,
    push_told, push_with_sign,
};

/// Each call once after `a`, onto one text.
fn push_all<T: Text>(text: &mut T) -> Result<(), OutOfMemory> {
    text.push_piece("a")?;
    push_both(text, "b", " c")?;
    push_number(text, 18446744073709551615)?;
    push_integer(text, -9223372036854775808)?;
    push_told(text, " mii ", 10)?;
    push_signed(text, " delay ", -4)?;
    push_with_sign(text, 0)?;
    push_with_sign(text, -1)?;
    push_at(text, " x", 0)?;
    push_at(text, " y", 16)?;
    push_line(text, ":")?;
    push_last(text, "loops ", 3, 2, 1)
}

const WHOLE: &str =
    "ab c18446744073709551615-9223372036854775808 mii 10 delay -4+0-1 x y@16:\nloops 3 met 2 failed 1\n";

#[test]
fn strings_and_bytes(rt: HostRuntime) {
    let mut text = String::new(rt.alloc());
    assert!(rt; push_all(&mut text).is_ok());
    assert!(rt; text.as_str() == WHOLE);
    let mut text = Vec::new(rt.alloc());
    assert!(rt; push_all(&mut text).is_ok());
    assert!(rt; text.as_slice() == WHOLE.as_bytes());
}

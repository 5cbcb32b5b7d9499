use crate::cursor::Cursor;
use crate::line::{Line, Lines, line_count};
use crate::numeral::numeral;
use crate::place::check_text;
use std::test::Fail;

// The column of the line's text fault, if it has one.
fn fault(bytes: &[u8], ended: bool) -> Option<usize> {
    let refusal = check_text(Line { bytes, ended }).err()?;
    Some(refusal.column)
}

#[test]
fn faults_stand_at_the_first_byte_that_leads_nowhere(rt: HostRuntime) {
    let faults: [(&[u8], usize); 5] = [
        (b"", 1),
        (b"(begin 01)", 9),
        (b"(a (b (", 7),
        (b"(a)x", 4),
        (b"(a  1)", 4),
    ];
    for (line, column) in faults {
        assert_eq!(rt; fault(line, true), Some(column));
    }
}

#[test]
fn faults_stand_one_past_an_unfinished_line(rt: HostRuntime) {
    assert_eq!(rt; fault(b"(begin 1)", false), Some(10));
    assert_eq!(rt; fault(b"(begin 1)", true), None);
}

#[test]
fn numbers_stop_at_32_bits(rt: HostRuntime) {
    assert_eq!(rt; numeral(b"4294967295"), Some(4_294_967_295));
    assert_eq!(rt; numeral(b"4294967296"), None);
}

#[test]
fn a_script_has_its_lines(rt: HostRuntime) {
    assert!(rt; line_count(b"(a)\n\n(b") == 3);
}

#[test]
fn lines_come_one_by_one(rt: HostRuntime) -> Result<(), Fail> {
    let mut lines = Lines::new(b"(a)\n\n(b");
    let first = lines.next().ok_or("no line")?;
    assert!(rt; first.bytes.len() == 3 && first.ended && lines.rest().len() == 3);
    assert!(rt; lines.filter(|line| line.ended).count() == 1);
    Ok(())
}

#[test]
fn tokens_have_columns(rt: HostRuntime) {
    let mut cursor = Cursor::new(b"(load 7)");
    let columns = [1, 2, 7, 8, 9];
    for column in columns {
        assert!(rt; cursor.next_token().column() == column);
    }
}

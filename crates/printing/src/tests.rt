use crate::page::Page;

#[test]
fn numbers_of_every_length(rt: HostRuntime) {
    let mut output = [0; 64];
    let mut page = Page::new(&mut output, 0);
    page.print_form(b"read", &[0u64, 9, 10, 4294967295, 18446744073709551615]);
    let end = page.end();
    assert!(rt; end <= 64);
    assert_eq!(rt;
        &output[0..end],
        b"(read 0 9 10 4294967295 18446744073709551615)\n".as_slice()
    );
}

#[test]
fn one_form_behind_another(rt: HostRuntime) {
    let mut output = *b"................";
    let mut page = Page::new(&mut output, 1);
    page.print_form::<u64>(b"ok", &[]);
    assert_eq!(rt; page.end(), 6);
    page.print_form(b"at", &[7u64]);
    assert_eq!(rt; page.end(), 13);
    assert_eq!(rt; output, *b".(ok)\n(at 7)\n...");
}

// The end of a form that is printed from a place on.
fn end_from(output: &mut [u8], at: usize) -> usize {
    let mut page = Page::new(output, at);
    page.print_form(b"at", &[100u64]);
    page.end()
}

#[test]
fn outputs_that_are_too_short(rt: HostRuntime) {
    let mut output = *b"........";
    assert_eq!(rt; end_from(&mut output, 3), 8);
    assert_eq!(rt; output, *b"...(at 1");
    assert_eq!(rt; end_from(&mut output, 8), 8);
    assert_eq!(rt; end_from(&mut output, 9), 9);
    assert_eq!(rt; output, *b"...(at 1");
}

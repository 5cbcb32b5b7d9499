use crate::form::{EngineForm, Form, PolicyName, StoreKind};
use crate::form_fault::FormFault;
use crate::read::read_form;
use rules::call::Call;
use std::test::Fail;
use text::line::Line;

// The form of a line that a line feed ends.
fn read(bytes: &[u8], has_engine: bool) -> Result<Form, FormFault> {
    read_form(Line { bytes, ended: true }, has_engine)
}

// The number and the column of a line's fault, if it has one.
fn fault(bytes: &[u8], has_engine: bool) -> Option<(u32, usize)> {
    read(bytes, has_engine)
        .err()
        .map(|fault| (fault.number(), fault.column()))
}

#[test]
fn faults_have_their_columns(rt: HostRuntime) {
    assert_eq!(rt; fault(b"(begin 01)", true), Some((41, 9)));
    assert_eq!(rt; fault(b"(start 1)", false), Some((42, 2)));
    assert_eq!(rt; fault(b"(engine (stripes 4))", false), Some((42, 10)));
    assert_eq!(rt; fault(b"(begin)", false), Some((44, 1)));
    assert_eq!(rt; fault(b"(engine)", true), Some((44, 1)));
}

#[test]
fn items_that_do_not_fit_have_their_columns(rt: HostRuntime) {
    assert_eq!(rt; fault(b"(load 1)", true), Some((43, 8)));
    assert_eq!(rt; fault(b"(begin 1 2)", true), Some((43, 10)));
    assert_eq!(rt; fault(b"(begin (x 1))", true), Some((43, 8)));
    assert_eq!(rt; fault(b"(begin 4294967296)", true), Some((43, 8)));
    assert_eq!(rt; fault(b"(engine (threads))", false), Some((43, 17)));
    assert_eq!(rt; fault(b"(engine (threads 2) 5)", false), Some((43, 21)));
}

#[test]
fn a_store_has_its_items_in_order(rt: HostRuntime) -> Result<(), Fail> {
    let Form::Call(
        Call::Store {
            thread,
            address,
            word,
        },
    ) = read(b"(store 1 20 4294967295)", true)?
    else {
        return Err(Fail::new("no store"));
    };
    assert_eq!(rt; (thread, address, word), (1, 20, u32::MAX));
    Ok(())
}

#[test]
fn an_engine_has_its_parts_in_order(rt: HostRuntime) -> Result<(), Fail> {
    let line =
        b"(engine (threads 2) (stripes 4) (shift 1) (limit 9) (words 16) (kind registers) (policy karma))";
    let Form::Engine(engine) = read(line, false)? else {
        return Err(Fail::new("no engine"));
    };
    let expected = EngineForm {
        threads: 2,
        stripes: 4,
        shift: 1,
        limit: 9,
        words: 16,
        kind: StoreKind::Registers,
        policy: PolicyName::Karma,
    };
    assert_eq!(rt; engine, expected);
    Ok(())
}

//! The state machine, step by step.

use kmip_ttlv_types::{Error, FieldType, TtlvStateMachine, TtlvStateMachineMode};
use std::test::Fail;

// Whether the machine accepts the field as one to write or read.
fn takes(machine: &mut TtlvStateMachine, field: FieldType) -> bool {
    matches!(machine.advance(field), Ok(true))
}

// Whether the machine ignores the field.
fn leaves_out(machine: &mut TtlvStateMachine, field: FieldType) -> bool {
    matches!(machine.advance(field), Ok(false))
}

// Whether the machine returns an error for the field.
fn returns_error(machine: &mut TtlvStateMachine, field: FieldType) -> bool {
    machine.advance(field).is_err()
}

// Whether the machine returns an error for the field because it expects another.
fn fails_for(machine: &mut TtlvStateMachine, field: FieldType, wanted: FieldType) -> bool {
    match &machine.advance(field) {
        Err(Error::UnexpectedTtlvField { expected, actual }) => {
            *expected == wanted && *actual == field
        }
        _ => false,
    }
}

// Whether the machine can't ignore a tag.
fn ignores_no_tag(machine: &mut TtlvStateMachine) -> bool {
    matches!(
        &machine.ignore_next_tag(),
        Err(Error::InvalidStateMachineOperation)
    )
}

#[test]
fn an_ignored_tag(rt: HostRuntime) -> Result<(), Fail> {
    let mut machine = TtlvStateMachine::new(TtlvStateMachineMode::Serializing);
    assert!(rt; takes(&mut machine, FieldType::Tag));
    assert!(rt; machine.ignore_next_tag().is_ok());
    assert!(rt; leaves_out(&mut machine, FieldType::Tag));
    assert!(rt; takes(&mut machine, FieldType::TypeAndLengthAndValue));
    Ok(())
}

#[test]
fn a_tag_that_is_none(rt: HostRuntime) -> Result<(), Fail> {
    let mut machine = TtlvStateMachine::new(TtlvStateMachineMode::Serializing);
    assert!(rt; takes(&mut machine, FieldType::Tag));
    assert!(rt; fails_for(&mut machine, FieldType::Tag, FieldType::Typ));
    assert!(rt; takes(&mut machine, FieldType::Typ));
    Ok(())
}

#[test]
fn reading_ignores_no_tag(rt: HostRuntime) -> Result<(), Fail> {
    let mut machine = TtlvStateMachine::new(TtlvStateMachineMode::Deserializing);
    assert!(rt; takes(&mut machine, FieldType::Tag));
    assert!(rt; takes(&mut machine, FieldType::Typ));
    assert!(rt; takes(&mut machine, FieldType::LengthAndValue));
    assert!(rt; ignores_no_tag(&mut machine));
    machine.reset();
    assert!(rt; returns_error(&mut machine, FieldType::Value));
    assert!(rt; takes(&mut machine, FieldType::Tag));
    Ok(())
}

#[test]
fn a_structure_is_walked(rt: HostRuntime) -> Result<(), Fail> {
    let mut machine = TtlvStateMachine::new(TtlvStateMachineMode::Deserializing);
    for field in [
        FieldType::Tag,
        FieldType::Typ,
        FieldType::Length,
        FieldType::Tag,
        FieldType::Typ,
        FieldType::Length,
        FieldType::Value,
        FieldType::Tag,
    ] {
        assert!(rt; takes(&mut machine, field));
    }
    Ok(())
}

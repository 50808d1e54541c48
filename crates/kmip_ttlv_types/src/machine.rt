//! A state machine for the order of an item's fields.

ghost use Rattle.std.specs.Prelude.{◌≡◌};
ghost use Rattle.kmip_ttlv_types.specs.Machine.{state_of, start_state, next_due, is_ignored, Advances, Ignores};

use crate::Result;
use crate::error::Error;
use crate::field::FieldType;

/// Whether fields are read or written.
#[derive(Clone, Copy, Debug, PartialEq, Eq)]
pub enum TtlvStateMachineMode {
    /// Fields are read. A length and its value may come as one field, `LengthAndValue`.
    Deserializing,
    /// Fields are written. What follows a tag may come as one field, `TypeAndLengthAndValue`.
    Serializing,
}

/// Accepts the fields of items in their order: tag, type, length, value. Any other field is an error.
///
/// After a value comes the tag of the next item. The value of a Structure is the items in it, so a tag is
/// accepted in place of a value. While serializing, type, length and value may be given at once; while
/// deserializing, length and value may.
///
/// ```
/// let mut machine = TtlvStateMachine::new(TtlvStateMachineMode::Serializing);
/// assert!(rt; machine.advance(FieldType::Tag)?);
/// assert!(rt; machine.advance(FieldType::Tag).is_err());
/// assert!(rt; machine.advance(FieldType::TypeAndLengthAndValue)?);
/// ```
#[derive(Clone, Copy, Debug, PartialEq, Eq)]
pub struct TtlvStateMachine {
    mode: TtlvStateMachineMode,
    due: FieldType,
    ignores_tag: bool,
}

impl TtlvStateMachine {
    /// A machine at the start of an item: it expects a tag.
    pub fn new(mode: TtlvStateMachineMode) -> TtlvStateMachine
        ensures { state_of result ≡ start_state mode }
    {
        TtlvStateMachine {
            mode,
            due: FieldType::Tag,
            ignores_tag: false,
        }
    }

    /// Accepts a field. Returns false if it is a tag that is ignored, and so isn't to be written; otherwise
    /// true.
    ///
    /// Fails with `UnexpectedTtlvField`, which has the expected field and the given one, if the field isn't
    /// accepted. The state then stays as it was.
    pub fn advance(&mut self, next: FieldType) -> Result<bool>
        ensures { Advances (state_of self.old) next (state_of self.new) result }
    {
        if self.ignores(next) {
            self.ignores_tag = false;
            return Ok(false);
        }
        match self.due_after(next) {
            Some(due) => {
                self.due = due;
                Ok(true)
            }
            None => Err(Error::UnexpectedTtlvField {
                expected: self.due,
                actual: next,
            }),
        }
    }

    /// From now on, ignores the next tag that is given where a type is expected.
    ///
    /// Fails with `InvalidStateMachineOperation` while deserializing.
    ///
    /// ```
    /// machine.advance(FieldType::Tag)?;
    /// machine.ignore_next_tag()?;
    /// assert!(rt; !machine.advance(FieldType::Tag)?);
    /// assert!(rt; machine.advance(FieldType::TypeAndLengthAndValue)?);
    /// ```
    pub fn ignore_next_tag(&mut self) -> Result<()>
        ensures { Ignores (state_of self.old) (state_of self.new) result }
    {
        match self.mode {
            TtlvStateMachineMode::Deserializing => Err(Error::InvalidStateMachineOperation),
            TtlvStateMachineMode::Serializing => {
                self.ignores_tag = true;
                Ok(())
            }
        }
    }

    /// Goes back to the start of an item.
    pub fn reset(&mut self)
        ensures { state_of self.new ≡ start_state (state_of self.old).mode }
    {
        self.due = FieldType::Tag;
        self.ignores_tag = false;
    }

    // Whether the field is a tag that is ignored.
    fn ignores(&self, next: FieldType) -> bool
        ensures { result ≡ is_ignored (state_of self.now) next }
    {
        self.ignores_tag
            && matches!(
                (self.mode, self.due, next),
                (
                    TtlvStateMachineMode::Serializing,
                    FieldType::Typ,
                    FieldType::Tag
                )
            )
    }

    // The field that is expected after this one, if this one is accepted.
    fn due_after(&self, next: FieldType) -> Option<FieldType>
        ensures { let s = state_of self.now in result ≡ next_due s.mode s.due next }
    {
        match (self.due, next) {
            (FieldType::Tag, FieldType::Tag) => Some(FieldType::Typ),
            (FieldType::Typ, FieldType::Typ) => Some(FieldType::Length),
            (FieldType::Length, FieldType::Length) => Some(FieldType::Value),
            (FieldType::Value, FieldType::Value) => Some(FieldType::Tag),
            (FieldType::Value, FieldType::Tag) => Some(FieldType::Typ),
            (FieldType::Typ, FieldType::TypeAndLengthAndValue) => match self.mode {
                TtlvStateMachineMode::Serializing => Some(FieldType::Tag),
                TtlvStateMachineMode::Deserializing => None,
            },
            (FieldType::Length, FieldType::LengthAndValue) => match self.mode {
                TtlvStateMachineMode::Deserializing => Some(FieldType::Tag),
                TtlvStateMachineMode::Serializing => None,
            },
            _ => None,
        }
    }
}

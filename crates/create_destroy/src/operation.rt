// Written by codegen from types.table: change that, and run codegen/codegen.
//! What an item asks for.

ghost use denote.Enum.Bare.{true_same};
ghost use Rattle.create_destroy.specs.Listed.{operation_is_unit, operation_number, operation_same, operation_variants};
ghost use Rattle.create_destroy.specs.contracts.operation.Operation as operation_contract;

use kmip_ttlv_kinds::Listed;

/// What an item asks for (KMIP 1.0, section 9.1.3.2.26).
#[derive(Clone, Copy, Debug, PartialEq, Eq)]
pub enum Operation {
    /// A key is to be made.
    Create,
    /// A key is to be destroyed.
    Destroy,
}

// Each number, and what it stands for.
const OPERATION: [(&str, Operation); 2] = [
    ("0x00000001", Operation::Create),
    ("0x00000014", Operation::Destroy),
];

impl Listed for Operation {
    ghost tag = { 0x42005C };

    ghost variants = { operation_variants };

    ghost rules = { record {
      number = operation_number;
      units = operation_is_unit;
      eq = ⟦<Operation as PartialEq>⟧.eq;
      same = λ x y e. true_same operation_contract.the_type x y (operation_same x y e);
    } };

    fn table() -> &'static [(&'static str, Self)] {
        &OPERATION
    }

    fn tag() -> u32 {
        0x42005C
    }

    #[tactic(auto, unfolding(kmip_ttlv_types::specs::Digits::six_digits))]
    fn name() -> &'static str {
        "0x42005C"
    }

    fn number_text(self) -> &'static str {
        match self {
            Operation::Create => "0x00000001",
            Operation::Destroy => "0x00000014",
        }
    }
}

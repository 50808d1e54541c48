// Written by codegen from types.table: change that, and run codegen/codegen.
//! What messages begin with (KMIP 1.0, section 6).

ghost use Rattle.std.specs.Prelude.{◌↔◌, ◌+◌, IsTrue, refl, true};
ghost use Rattle.kmip_ttlv_parts.specs.Returns.{IsNoneOf, text_of_number};
ghost use Rattle.kmip_ttlv_kinds.specs.Parts.{structure, structure_where};
ghost use Rattle.kmip_ttlv_kinds.specs.Choices.{held};
ghost use Rattle.kmip_headers.specs.Choices.{credential_value_choice, ChoosesCredentialValue, credential_value_names, asynchronous_indicator_choice};

use kmip_ttlv_kinds::{
    Alone, Any, Choice, Decided, Element, Four, FromParts, Holds, Leaf, LeafItem, Maybe, MaybeLeaf,
    MaybeOneOf, Of, One, OneOf, PartList, Several, Structure, Walk, read_structure,
};
use kmip_ttlv_parts::laws::is_none_of;
use kmip_ttlv_parts::reader::{Cursor, DateTime, RuleParts, Scope, Step};
use kmip_ttlv_parts::types::TtlvType;
use kmip_ttlv_parts::{Enumeration, Kept};
use std::alloc::{AllocError, Allocator, Global};

/// The version of the protocol (section 6.1).
#[derive(Clone, Copy, PartialEq, Eq)]
pub struct ProtocolVersion {
    /// Major versions are not compatible.
    pub major: i32,
    /// Minor ones are.
    pub minor: i32,
}

type ProtocolVersionParts = (Leaf<i32, 0x42006A>, Leaf<i32, 0x42006B>);

impl<A: Allocator + Copy> FromParts<A, ProtocolVersionParts> for ProtocolVersion {
    ghost parts = { λ x. (x.major, x.minor) };

    fn from_parts((major, minor): Holds<ProtocolVersionParts, A>) -> Self {
        ProtocolVersion { major, minor }
    }
}

impl<A: Allocator + Copy> Structure<A> for ProtocolVersion {
    ghost rules = { structure true ⟦<ProtocolVersionParts as PartList<A>>⟧.rules ⟦<ProtocolVersion as FromParts<A, ProtocolVersionParts>>⟧.parts refl ⟦<ProtocolVersion as PartialEq>⟧.eq (λ x y e. e) };

    fn read<'b>(scope: &Scope<'b, A>, tag: u32, cursor: &mut Cursor<'b, A>) -> Step<Self, A> {
        read_structure::<ProtocolVersionParts, Self, A>(scope, tag, true, cursor)
    }

    fn tell_parts<W: Walk<A>>(&self, state: &mut W::State) -> Result<(), AllocError> {
        W::two::<Leaf<i32, 0x42006A>, Leaf<i32, 0x42006B>>(state, &self.major, &self.minor)
    }
}

/// What a client proves who it is by (section 9.1.3.2.1).
pub type CredentialType = Enumeration<0x420024>;

/// The numbers of `CredentialType` that have a name.
pub mod credential_type {
    use super::CredentialType;

    /// A name, and a password.
    pub const USERNAME_AND_PASSWORD: CredentialType = CredentialType { number: 0x00000001 };
    /// What a device knows of itself (KMIP 1.1).
    pub const DEVICE: CredentialType = CredentialType { number: 0x00000002 };
}

/// A name, and a password (section 2.1.2).
#[derive(Drop)]
#[derive_where(PartialEq)]
pub struct UsernameAndPassword<A: Allocator = Global> {
    /// The name.
    pub username: String<A>,
    /// The password.
    pub password: Option<String<A>>,
}

type UsernameAndPasswordParts<A> = (Leaf<String<A>, 0x420099>, MaybeLeaf<String<A>, 0x4200A1>);

impl<A: Allocator + Copy> FromParts<A, UsernameAndPasswordParts<A>> for UsernameAndPassword<A> {
    ghost parts = { λ x. (x.username, x.password) };

    fn from_parts((username, password): Holds<UsernameAndPasswordParts<A>, A>) -> Self {
        UsernameAndPassword { username, password }
    }
}

impl<A: Allocator + Copy> Structure<A> for UsernameAndPassword<A> {
    ghost rules = { structure true ⟦<UsernameAndPasswordParts<A> as PartList<A>>⟧.rules ⟦<UsernameAndPassword<A> as FromParts<A, UsernameAndPasswordParts<A>>>⟧.parts refl ⟦<UsernameAndPassword<A> as PartialEq>⟧.eq (λ x y e. e) };

    fn read<'b>(scope: &Scope<'b, A>, tag: u32, cursor: &mut Cursor<'b, A>) -> Step<Self, A> {
        read_structure::<UsernameAndPasswordParts<A>, Self, A>(scope, tag, true, cursor)
    }

    fn tell_parts<W: Walk<A>>(&self, state: &mut W::State) -> Result<(), AllocError> {
        W::two::<Leaf<String<A>, 0x420099>, MaybeLeaf<String<A>, 0x4200A1>>(
            state,
            &self.username,
            &self.password,
        )
    }
}

/// What a device knows of itself (KMIP 1.1, section 2.1.2).
#[derive(Drop)]
#[derive_where(PartialEq)]
pub struct Device<A: Allocator = Global> {
    /// Its number.
    pub device_serial_number: Option<String<A>>,
    /// Its password.
    pub password: Option<String<A>>,
    /// What names the device.
    pub device_identifier: Option<String<A>>,
    /// What names it on the network.
    pub network_identifier: Option<String<A>>,
    /// What names the machine that it is in.
    pub machine_identifier: Option<String<A>>,
    /// What names the medium that it reads.
    pub media_identifier: Option<String<A>>,
}

type DeviceFirst<A> = (
    MaybeLeaf<String<A>, 0x4200B0>,
    MaybeLeaf<String<A>, 0x4200A1>,
    MaybeLeaf<String<A>, 0x4200A2>,
    MaybeLeaf<String<A>, 0x4200AB>,
);

type DeviceSecond<A> = (
    MaybeLeaf<String<A>, 0x4200A9>,
    MaybeLeaf<String<A>, 0x4200AA>,
);

type DeviceParts<A> = Four<DeviceFirst<A>, DeviceSecond<A>>;

impl<A: Allocator + Copy> FromParts<A, DeviceParts<A>> for Device<A> {
    ghost parts = { λ x. (x.device_serial_number, x.password, x.device_identifier, x.network_identifier, (x.machine_identifier, x.media_identifier)) };

    fn from_parts(
        (
            device_serial_number,
            password,
            device_identifier,
            network_identifier,
            (machine_identifier, media_identifier),
        ): Holds<DeviceParts<A>, A>,
    ) -> Self {
        Device {
            device_serial_number,
            password,
            device_identifier,
            network_identifier,
            machine_identifier,
            media_identifier,
        }
    }
}

impl<A: Allocator + Copy> Structure<A> for Device<A> {
    ghost rules = { structure true ⟦<DeviceParts<A> as PartList<A>>⟧.rules ⟦<Device<A> as FromParts<A, DeviceParts<A>>>⟧.parts refl ⟦<Device<A> as PartialEq>⟧.eq (λ x y e. e) };

    fn read<'b>(scope: &Scope<'b, A>, tag: u32, cursor: &mut Cursor<'b, A>) -> Step<Self, A> {
        read_structure::<DeviceParts<A>, Self, A>(scope, tag, true, cursor)
    }

    fn tell_parts<W: Walk<A>>(&self, state: &mut W::State) -> Result<(), AllocError> {
        W::four::<
            MaybeLeaf<String<A>, 0x4200B0>,
            MaybeLeaf<String<A>, 0x4200A1>,
            MaybeLeaf<String<A>, 0x4200A2>,
            MaybeLeaf<String<A>, 0x4200AB>,
        >(
            state,
            &self.device_serial_number,
            &self.password,
            &self.device_identifier,
            &self.network_identifier,
        )?;
        W::two::<MaybeLeaf<String<A>, 0x4200A9>, MaybeLeaf<String<A>, 0x4200AA>>(
            state,
            &self.machine_identifier,
            &self.media_identifier,
        )?;
        Ok(())
    }
}

/// What a client says of itself.
#[derive(Drop)]
#[derive_where(PartialEq)]
pub enum CredentialValue<A: Allocator = Global> {
    /// A name, and a password.
    UsernameAndPassword(UsernameAndPassword<A>),
    /// What a device knows of itself.
    Device(Device<A>),
    /// What a credential of any other type says.
    Other(Kept<A>),
}

// The texts that choose a variant, whatever the type of its item is.
const CREDENTIAL_VALUE_NAMES: [&str; 2] = ["0x00000001", "0x00000002"];

// Whether a text is none of these.
fn is_no_credential_value(text: &str) -> bool
    ensures { IsTrue result ↔ IsNoneOf text.now credential_value_names }
{
    is_none_of(text, &CREDENTIAL_VALUE_NAMES)
}

impl<A: Allocator> CredentialValue<A> {
    /// Whether this text, if it is that of 0x420024, chooses it.
    pub fn is_chosen_by(&self, text: &str) -> bool
        ensures { IsTrue result ↔ ChoosesCredentialValue text.now self.now }
    {
        match self {
            CredentialValue::UsernameAndPassword(_) => text == "0x00000001",
            CredentialValue::Device(_) => text == "0x00000002",
            CredentialValue::Other(_) => is_no_credential_value(text),
        }
    }
}

// The rules of the variants, in their order.
const CREDENTIAL_VALUE_RULES: [RuleParts; 3] = [
    RuleParts::Texts {
        tag: 0x420024,
        texts: &["0x00000001"],
    },
    RuleParts::Texts {
        tag: 0x420024,
        texts: &["0x00000002"],
    },
    RuleParts::Type(TtlvType::Structure),
];

impl<A: Allocator + Copy> Choice<A> for CredentialValue<A> {
    ghost chosen = { credential_value_choice ⟦<CredentialValue<A> as PartialEq>⟧.eq record {
      username_and_password = held ⟦<Of<UsernameAndPassword<A>, 0x420025> as Element<A>>⟧.rules refl refl (λ x y e. e);
      device = held ⟦<Of<Device<A>, 0x420025> as Element<A>>⟧.rules refl refl (λ x y e. e);
      other = held ⟦<Of<Kept<A>, 0x420025> as Element<A>>⟧.rules refl refl (λ x y e. e);
    } };

    #[tactic(auto, unfolding(kmip_ttlv_reader::specs::RuleParts::parts_of, kmip_ttlv_reader::specs::RuleParts::equal_sides))]
    fn variant_rules() -> &'static [RuleParts] {
        &CREDENTIAL_VALUE_RULES
    }

    fn read_held<'b>(
        scope: &Scope<'b, A>,
        cursor: &mut Cursor<'b, A>,
        place: usize,
    ) -> Step<Self, A> {
        match place {
            0 => Ok(CredentialValue::UsernameAndPassword(<Of<
                UsernameAndPassword<A>,
                0x420025,
            > as Element<A>>::read_one(scope, cursor)?)),
            1 => Ok(CredentialValue::Device(<Of<Device<A>, 0x420025> as Element<A>>::read_one(
                scope, cursor,
            )?)),
            2 => Ok(CredentialValue::Other(<Of<Kept<A>, 0x420025> as Element<A>>::read_one(
                scope, cursor,
            )?)),
            _ => unreachable!(),
        }
    }

    fn tell_held<W: Walk<A>>(&self, state: &mut W::State) -> Result<(), AllocError> {
        match self {
            CredentialValue::UsernameAndPassword(inner) => W::item::<
                Of<UsernameAndPassword<A>, 0x420025>,
            >(state, inner),
            CredentialValue::Device(inner) => W::item::<Of<Device<A>, 0x420025>>(state, inner),
            CredentialValue::Other(inner) => W::item::<Of<Kept<A>, 0x420025>>(state, inner),
        }
    }
}

/// Who a client is (section 2.1.2).
#[derive(Drop)]
#[derive_where(PartialEq)]
pub struct Credential<A: Allocator = Global> {
    /// What it proves that by.
    pub credential_type: CredentialType,
    /// What it says.
    pub credential_value: CredentialValue<A>,
}

impl<A: Allocator> Decided for Credential<A> {
    ghost IsDecided = { λ x. (ChoosesCredentialValue (text_of_number x.credential_type.number) x.credential_value) };

    fn is_decided(&self) -> bool {
        self.credential_value
            .is_chosen_by(self.credential_type.number_text().as_str())
    }
}

type CredentialParts<A> = (One<CredentialType>, OneOf<CredentialValue<A>, 0x420025>);

impl<A: Allocator + Copy> FromParts<A, CredentialParts<A>> for Credential<A> {
    ghost parts = { λ x. (x.credential_type, x.credential_value) };

    fn from_parts((credential_type, credential_value): Holds<CredentialParts<A>, A>) -> Self {
        Credential {
            credential_type,
            credential_value,
        }
    }
}

impl<A: Allocator + Copy> Structure<A> for Credential<A> {
    ghost rules = { structure_where true ⟦<CredentialParts<A> as PartList<A>>⟧.rules ⟦<Credential<A> as FromParts<A, CredentialParts<A>>>⟧.parts refl
        (λ x. (ChoosesCredentialValue (text_of_number x.credential_type.number) x.credential_value)) (λ x d. (tt, (d))) ⟦<Credential<A> as PartialEq>⟧.eq (λ x y e. e) };

    fn read<'b>(scope: &Scope<'b, A>, tag: u32, cursor: &mut Cursor<'b, A>) -> Step<Self, A> {
        read_structure::<CredentialParts<A>, Self, A>(scope, tag, true, cursor)
    }

    fn tell_parts<W: Walk<A>>(&self, state: &mut W::State) -> Result<(), AllocError> {
        W::two::<One<CredentialType>, OneOf<CredentialValue<A>, 0x420025>>(
            state,
            &self.credential_type,
            &self.credential_value,
        )?;
        W::check(state, self);
        Ok(())
    }
}

/// Who a client is (section 6.6).
#[derive(Drop)]
#[derive_where(PartialEq)]
pub struct Authentication<A: Allocator = Global> {
    /// One; several from KMIP 1.2 on.
    pub credentials: Vec<Credential<A>, A>,
}

type AuthenticationParts<A> = Alone<Several<Of<Credential<A>, 0x420023>, 0x420023>>;

impl<A: Allocator + Copy> FromParts<A, AuthenticationParts<A>> for Authentication<A> {
    ghost parts = { λ x. x.credentials };

    fn from_parts(credentials: Holds<AuthenticationParts<A>, A>) -> Self {
        Authentication { credentials }
    }
}

impl<A: Allocator + Copy> Structure<A> for Authentication<A> {
    ghost rules = { structure true ⟦<AuthenticationParts<A> as PartList<A>>⟧.rules ⟦<Authentication<A> as FromParts<A, AuthenticationParts<A>>>⟧.parts refl ⟦<Authentication<A> as PartialEq>⟧.eq (λ x y e. e) };

    fn read<'b>(scope: &Scope<'b, A>, tag: u32, cursor: &mut Cursor<'b, A>) -> Step<Self, A> {
        read_structure::<AuthenticationParts<A>, Self, A>(scope, tag, true, cursor)
    }

    fn tell_parts<W: Walk<A>>(&self, state: &mut W::State) -> Result<(), AllocError> {
        W::one::<Several<Of<Credential<A>, 0x420023>, 0x420023>>(state, &self.credentials)
    }
}

/// What a server does after an item that failed (section 9.1.3.2.29).
pub type BatchErrorContinuationOption = Enumeration<0x42000E>;

/// The numbers of `BatchErrorContinuationOption` that have a name.
pub mod batch_error_continuation_option {
    use super::BatchErrorContinuationOption;

    /// It goes on.
    pub const CONTINUE: BatchErrorContinuationOption = BatchErrorContinuationOption {
        number: 0x00000001,
    };
    /// It stops.
    pub const STOP: BatchErrorContinuationOption = BatchErrorContinuationOption {
        number: 0x00000002,
    };
    /// It undoes what it did.
    pub const UNDO: BatchErrorContinuationOption = BatchErrorContinuationOption {
        number: 0x00000003,
    };
}

/// Whether the client is able to poll for the response (section 6.7).
#[derive(Clone, Copy, PartialEq, Eq)]
pub enum AsynchronousIndicator {
    /// A truth value, up to KMIP 1.4.
    Boolean(bool),
    /// A number: whether it has to, may or must not (KMIP 2.0).
    Enumeration(u32),
}

// The rules of the variants, in their order.
const ASYNCHRONOUS_INDICATOR_RULES: [RuleParts; 2] = [
    RuleParts::Type(TtlvType::Boolean),
    RuleParts::Type(TtlvType::Enumeration),
];

impl<A: Allocator + Copy> Choice<A> for AsynchronousIndicator {
    ghost chosen = { asynchronous_indicator_choice ⟦<AsynchronousIndicator as PartialEq>⟧.eq record {
      boolean = held ⟦<LeafItem<bool, 0x420007> as Element<A>>⟧.rules refl refl (λ x y e. e);
      enumeration = held ⟦<LeafItem<u32, 0x420007> as Element<A>>⟧.rules refl refl (λ x y e. e);
    } };

    #[tactic(auto, unfolding(kmip_ttlv_reader::specs::RuleParts::parts_of, kmip_ttlv_reader::specs::RuleParts::equal_sides))]
    fn variant_rules() -> &'static [RuleParts] {
        &ASYNCHRONOUS_INDICATOR_RULES
    }

    fn read_held<'b>(
        scope: &Scope<'b, A>,
        cursor: &mut Cursor<'b, A>,
        place: usize,
    ) -> Step<Self, A> {
        match place {
            0 => Ok(AsynchronousIndicator::Boolean(<LeafItem<bool, 0x420007> as Element<
                A,
            >>::read_one(scope, cursor)?)),
            1 => Ok(AsynchronousIndicator::Enumeration(<LeafItem<u32, 0x420007> as Element<
                A,
            >>::read_one(scope, cursor)?)),
            _ => unreachable!(),
        }
    }

    fn tell_held<W: Walk<A>>(&self, state: &mut W::State) -> Result<(), AllocError> {
        match self {
            AsynchronousIndicator::Boolean(inner) => W::item::<LeafItem<bool, 0x420007>>(
                state, inner,
            ),
            AsynchronousIndicator::Enumeration(inner) => W::item::<LeafItem<u32, 0x420007>>(
                state, inner,
            ),
        }
    }
}

/// The header of a request (section 7.2).
#[derive(Drop)]
#[derive_where(PartialEq)]
pub struct RequestHeader<A: Allocator = Global> {
    /// The version of the request.
    pub version: ProtocolVersion,
    /// How many bytes the response may have.
    pub maximum_response_size: Option<i32>,
    /// What the client calls the request (KMIP 1.4).
    pub client_correlation_value: Option<String<A>>,
    /// What the server called the one before (KMIP 1.4).
    pub server_correlation_value: Option<String<A>>,
    /// Whether the client is able to poll for the response.
    pub asynchronous_indicator: Option<AsynchronousIndicator>,
    /// Whether the client is able to prove what it runs (KMIP 1.2).
    pub attestation_capable_indicator: Option<bool>,
    /// By what it is able to (KMIP 1.2).
    pub attestation_types: Vec<u32, A>,
    /// Who the client is.
    pub authentication: Option<Authentication<A>>,
    /// What the server does after an item that failed.
    pub batch_error_continuation_option: Option<BatchErrorContinuationOption>,
    /// Whether the items are to be processed in their order.
    pub batch_order_option: Option<bool>,
    /// When it was made.
    pub time_stamp: Option<DateTime>,
    /// How many items follow.
    pub batch_count: i32,
}

type RequestHeaderFirst<A> = (
    One<Of<ProtocolVersion, 0x420069>>,
    MaybeLeaf<i32, 0x420050>,
    MaybeLeaf<String<A>, 0x420105>,
    MaybeLeaf<String<A>, 0x420106>,
);

type RequestHeaderSecond<A> = (
    MaybeOneOf<AsynchronousIndicator, 0x420007>,
    MaybeLeaf<bool, 0x4200D3>,
    Any<LeafItem<u32, 0x4200C7>, 0x4200C7>,
    Maybe<Of<Authentication<A>, 0x42000C>, 0x42000C>,
);

type RequestHeaderThird = (
    Maybe<BatchErrorContinuationOption, 0x42000E>,
    MaybeLeaf<bool, 0x420010>,
    MaybeLeaf<DateTime, 0x420092>,
    Leaf<i32, 0x42000D>,
);

type RequestHeaderParts<A> = Four<
    RequestHeaderFirst<A>,
    Four<RequestHeaderSecond<A>, RequestHeaderThird>,
>;

impl<A: Allocator + Copy> FromParts<A, RequestHeaderParts<A>> for RequestHeader<A> {
    ghost parts = { λ x. (x.version, x.maximum_response_size, x.client_correlation_value, x.server_correlation_value, (x.asynchronous_indicator, x.attestation_capable_indicator, x.attestation_types, x.authentication, (x.batch_error_continuation_option, x.batch_order_option, x.time_stamp, x.batch_count))) };

    fn from_parts(
        (
            version,
            maximum_response_size,
            client_correlation_value,
            server_correlation_value,
            (
                asynchronous_indicator,
                attestation_capable_indicator,
                attestation_types,
                authentication,
                (batch_error_continuation_option, batch_order_option, time_stamp, batch_count),
            ),
        ): Holds<RequestHeaderParts<A>, A>,
    ) -> Self {
        RequestHeader {
            version,
            maximum_response_size,
            client_correlation_value,
            server_correlation_value,
            asynchronous_indicator,
            attestation_capable_indicator,
            attestation_types,
            authentication,
            batch_error_continuation_option,
            batch_order_option,
            time_stamp,
            batch_count,
        }
    }
}

impl<A: Allocator + Copy> Structure<A> for RequestHeader<A> {
    ghost rules = { structure true ⟦<RequestHeaderParts<A> as PartList<A>>⟧.rules ⟦<RequestHeader<A> as FromParts<A, RequestHeaderParts<A>>>⟧.parts refl ⟦<RequestHeader<A> as PartialEq>⟧.eq (λ x y e. e) };

    fn read<'b>(scope: &Scope<'b, A>, tag: u32, cursor: &mut Cursor<'b, A>) -> Step<Self, A> {
        read_structure::<RequestHeaderParts<A>, Self, A>(scope, tag, true, cursor)
    }

    fn tell_parts<W: Walk<A>>(&self, state: &mut W::State) -> Result<(), AllocError> {
        W::four::<
            One<Of<ProtocolVersion, 0x420069>>,
            MaybeLeaf<i32, 0x420050>,
            MaybeLeaf<String<A>, 0x420105>,
            MaybeLeaf<String<A>, 0x420106>,
        >(
            state,
            &self.version,
            &self.maximum_response_size,
            &self.client_correlation_value,
            &self.server_correlation_value,
        )?;
        W::four::<
            MaybeOneOf<AsynchronousIndicator, 0x420007>,
            MaybeLeaf<bool, 0x4200D3>,
            Any<LeafItem<u32, 0x4200C7>, 0x4200C7>,
            Maybe<Of<Authentication<A>, 0x42000C>, 0x42000C>,
        >(
            state,
            &self.asynchronous_indicator,
            &self.attestation_capable_indicator,
            &self.attestation_types,
            &self.authentication,
        )?;
        W::four::<
            Maybe<BatchErrorContinuationOption, 0x42000E>,
            MaybeLeaf<bool, 0x420010>,
            MaybeLeaf<DateTime, 0x420092>,
            Leaf<i32, 0x42000D>,
        >(
            state,
            &self.batch_error_continuation_option,
            &self.batch_order_option,
            &self.time_stamp,
            &self.batch_count,
        )?;
        Ok(())
    }
}

/// What a proof has to be of, so that it is no older one (KMIP 1.2, section 2.1.14).
#[derive(Drop)]
#[derive_where(PartialEq)]
pub struct Nonce<A: Allocator = Global> {
    /// What names it.
    pub nonce_id: Vec<u8, A>,
    /// Bytes that come once.
    pub nonce_value: Vec<u8, A>,
}

type NonceParts<A> = (Leaf<Vec<u8, A>, 0x4200C9>, Leaf<Vec<u8, A>, 0x4200CA>);

impl<A: Allocator + Copy> FromParts<A, NonceParts<A>> for Nonce<A> {
    ghost parts = { λ x. (x.nonce_id, x.nonce_value) };

    fn from_parts((nonce_id, nonce_value): Holds<NonceParts<A>, A>) -> Self {
        Nonce {
            nonce_id,
            nonce_value,
        }
    }
}

impl<A: Allocator + Copy> Structure<A> for Nonce<A> {
    ghost rules = { structure true ⟦<NonceParts<A> as PartList<A>>⟧.rules ⟦<Nonce<A> as FromParts<A, NonceParts<A>>>⟧.parts refl ⟦<Nonce<A> as PartialEq>⟧.eq (λ x y e. e) };

    fn read<'b>(scope: &Scope<'b, A>, tag: u32, cursor: &mut Cursor<'b, A>) -> Step<Self, A> {
        read_structure::<NonceParts<A>, Self, A>(scope, tag, true, cursor)
    }

    fn tell_parts<W: Walk<A>>(&self, state: &mut W::State) -> Result<(), AllocError> {
        W::two::<Leaf<Vec<u8, A>, 0x4200C9>, Leaf<Vec<u8, A>, 0x4200CA>>(
            state,
            &self.nonce_id,
            &self.nonce_value,
        )
    }
}

/// The header of a response (section 7.2).
#[derive(Drop)]
#[derive_where(PartialEq)]
pub struct ResponseHeader<A: Allocator = Global> {
    /// The version of the response.
    pub version: ProtocolVersion,
    /// When it was made, in seconds since 1970.
    pub time_stamp: DateTime,
    /// What a proof of what the client runs has to be of (KMIP 1.2).
    pub nonce: Option<Nonce<A>>,
    /// A proof that the server knows the client's password (KMIP 2.0).
    pub server_hashed_password: Option<Vec<u8, A>>,
    /// How the client may prove what it runs (KMIP 1.2).
    pub attestation_types: Vec<u32, A>,
    /// What the client called the request (KMIP 1.4).
    pub client_correlation_value: Option<String<A>>,
    /// What the server calls it (KMIP 1.4).
    pub server_correlation_value: Option<String<A>>,
    /// How many items follow.
    pub batch_count: i32,
}

type ResponseHeaderFirst<A> = (
    One<Of<ProtocolVersion, 0x420069>>,
    Leaf<DateTime, 0x420092>,
    Maybe<Of<Nonce<A>, 0x4200C8>, 0x4200C8>,
    MaybeLeaf<Vec<u8, A>, 0x420155>,
);

type ResponseHeaderSecond<A> = (
    Any<LeafItem<u32, 0x4200C7>, 0x4200C7>,
    MaybeLeaf<String<A>, 0x420105>,
    MaybeLeaf<String<A>, 0x420106>,
    Leaf<i32, 0x42000D>,
);

type ResponseHeaderParts<A> = Four<ResponseHeaderFirst<A>, ResponseHeaderSecond<A>>;

impl<A: Allocator + Copy> FromParts<A, ResponseHeaderParts<A>> for ResponseHeader<A> {
    ghost parts = { λ x. (x.version, x.time_stamp, x.nonce, x.server_hashed_password, (x.attestation_types, x.client_correlation_value, x.server_correlation_value, x.batch_count)) };

    fn from_parts(
        (
            version,
            time_stamp,
            nonce,
            server_hashed_password,
            (attestation_types, client_correlation_value, server_correlation_value, batch_count),
        ): Holds<ResponseHeaderParts<A>, A>,
    ) -> Self {
        ResponseHeader {
            version,
            time_stamp,
            nonce,
            server_hashed_password,
            attestation_types,
            client_correlation_value,
            server_correlation_value,
            batch_count,
        }
    }
}

impl<A: Allocator + Copy> Structure<A> for ResponseHeader<A> {
    ghost rules = { structure true ⟦<ResponseHeaderParts<A> as PartList<A>>⟧.rules ⟦<ResponseHeader<A> as FromParts<A, ResponseHeaderParts<A>>>⟧.parts refl ⟦<ResponseHeader<A> as PartialEq>⟧.eq (λ x y e. e) };

    fn read<'b>(scope: &Scope<'b, A>, tag: u32, cursor: &mut Cursor<'b, A>) -> Step<Self, A> {
        read_structure::<ResponseHeaderParts<A>, Self, A>(scope, tag, true, cursor)
    }

    fn tell_parts<W: Walk<A>>(&self, state: &mut W::State) -> Result<(), AllocError> {
        W::four::<
            One<Of<ProtocolVersion, 0x420069>>,
            Leaf<DateTime, 0x420092>,
            Maybe<Of<Nonce<A>, 0x4200C8>, 0x4200C8>,
            MaybeLeaf<Vec<u8, A>, 0x420155>,
        >(
            state,
            &self.version,
            &self.time_stamp,
            &self.nonce,
            &self.server_hashed_password,
        )?;
        W::four::<
            Any<LeafItem<u32, 0x4200C7>, 0x4200C7>,
            MaybeLeaf<String<A>, 0x420105>,
            MaybeLeaf<String<A>, 0x420106>,
            Leaf<i32, 0x42000D>,
        >(
            state,
            &self.attestation_types,
            &self.client_correlation_value,
            &self.server_correlation_value,
            &self.batch_count,
        )?;
        Ok(())
    }
}

/// What an item asks for (section 9.1.3.2.26).
pub type Operation = Enumeration<0x42005C>;

/// The numbers of `Operation` that have a name.
pub mod operation {
    use super::Operation;

    /// To make a symmetric key.
    pub const CREATE: Operation = Operation { number: 0x00000001 };
    /// To make a public and a private key.
    pub const CREATE_KEY_PAIR: Operation = Operation { number: 0x00000002 };
    /// To keep an object.
    pub const REGISTER: Operation = Operation { number: 0x00000003 };
    /// To make a key in place of another.
    pub const RE_KEY: Operation = Operation { number: 0x00000004 };
    /// To make a key of others.
    pub const DERIVE_KEY: Operation = Operation { number: 0x00000005 };
    /// To make a certificate.
    pub const CERTIFY: Operation = Operation { number: 0x00000006 };
    /// To make a certificate in place of another.
    pub const RE_CERTIFY: Operation = Operation { number: 0x00000007 };
    /// To find objects.
    pub const LOCATE: Operation = Operation { number: 0x00000008 };
    /// To say whether an object may be used.
    pub const CHECK: Operation = Operation { number: 0x00000009 };
    /// To get an object.
    pub const GET: Operation = Operation { number: 0x0000000A };
    /// To get what is known of it.
    pub const GET_ATTRIBUTES: Operation = Operation { number: 0x0000000B };
    /// To get the names of what is known.
    pub const GET_ATTRIBUTE_LIST: Operation = Operation { number: 0x0000000C };
    /// To add an attribute.
    pub const ADD_ATTRIBUTE: Operation = Operation { number: 0x0000000D };
    /// To change one.
    pub const MODIFY_ATTRIBUTE: Operation = Operation { number: 0x0000000E };
    /// To delete one.
    pub const DELETE_ATTRIBUTE: Operation = Operation { number: 0x0000000F };
    /// To use an object for a time.
    pub const OBTAIN_LEASE: Operation = Operation { number: 0x00000010 };
    /// To use it for an amount.
    pub const GET_USAGE_ALLOCATION: Operation = Operation { number: 0x00000011 };
    /// To have it in use.
    pub const ACTIVATE: Operation = Operation { number: 0x00000012 };
    /// To have it no longer in use.
    pub const REVOKE: Operation = Operation { number: 0x00000013 };
    /// To have it destroyed.
    pub const DESTROY: Operation = Operation { number: 0x00000014 };
    /// To put it away.
    pub const ARCHIVE: Operation = Operation { number: 0x00000015 };
    /// To bring it back.
    pub const RECOVER: Operation = Operation { number: 0x00000016 };
    /// To say whether certificates are valid.
    pub const VALIDATE: Operation = Operation { number: 0x00000017 };
    /// To say what the server can do.
    pub const QUERY: Operation = Operation { number: 0x00000018 };
    /// To give up an operation.
    pub const CANCEL: Operation = Operation { number: 0x00000019 };
    /// To ask for the response of one.
    pub const POLL: Operation = Operation { number: 0x0000001A };
    /// To tell a client what has changed.
    pub const NOTIFY: Operation = Operation { number: 0x0000001B };
    /// To give a client an object.
    pub const PUT: Operation = Operation { number: 0x0000001C };
    /// To make a public and a private key in place of others (KMIP 1.1).
    pub const RE_KEY_KEY_PAIR: Operation = Operation { number: 0x0000001D };
    /// To say which versions the server has (KMIP 1.1).
    pub const DISCOVER_VERSIONS: Operation = Operation { number: 0x0000001E };
    /// To encrypt data (KMIP 1.2).
    pub const ENCRYPT: Operation = Operation { number: 0x0000001F };
    /// To decrypt it (KMIP 1.2).
    pub const DECRYPT: Operation = Operation { number: 0x00000020 };
    /// To sign data (KMIP 1.2).
    pub const SIGN: Operation = Operation { number: 0x00000021 };
    /// To say whether a signature is valid (KMIP 1.2).
    pub const SIGNATURE_VERIFY: Operation = Operation { number: 0x00000022 };
    /// To make a MAC of data (KMIP 1.2).
    pub const MAC: Operation = Operation { number: 0x00000023 };
    /// To say whether a MAC is valid (KMIP 1.2).
    pub const MAC_VERIFY: Operation = Operation { number: 0x00000024 };
    /// To get random bytes (KMIP 1.2).
    pub const RNG_RETRIEVE: Operation = Operation { number: 0x00000025 };
    /// To give some to the server (KMIP 1.2).
    pub const RNG_SEED: Operation = Operation { number: 0x00000026 };
    /// To make a hash of data (KMIP 1.2).
    pub const HASH: Operation = Operation { number: 0x00000027 };
    /// To make the parts of a key (KMIP 1.2).
    pub const CREATE_SPLIT_KEY: Operation = Operation { number: 0x00000028 };
    /// To make a key of its parts (KMIP 1.2).
    pub const JOIN_SPLIT_KEY: Operation = Operation { number: 0x00000029 };
    /// To keep an object as another server had it (KMIP 1.4).
    pub const IMPORT: Operation = Operation { number: 0x0000002A };
    /// To get one as another server is to have it (KMIP 1.4).
    pub const EXPORT: Operation = Operation { number: 0x0000002B };
    /// To have the server log a message (KMIP 2.0).
    pub const LOG: Operation = Operation { number: 0x0000002C };
    /// To get a ticket (KMIP 2.0).
    pub const LOGIN: Operation = Operation { number: 0x0000002D };
    /// To have it no longer good (KMIP 2.0).
    pub const LOGOUT: Operation = Operation { number: 0x0000002E };
    /// To get a ticket for another (KMIP 2.0).
    pub const DELEGATED_LOGIN: Operation = Operation { number: 0x0000002F };
    /// To have an attribute more, less, or turned round (KMIP 2.0).
    pub const ADJUST_ATTRIBUTE: Operation = Operation { number: 0x00000030 };
    /// To give an attribute a value (KMIP 2.0).
    pub const SET_ATTRIBUTE: Operation = Operation { number: 0x00000031 };
    /// To say who is the client of a connection (KMIP 2.0).
    pub const SET_ENDPOINT_ROLE: Operation = Operation { number: 0x00000032 };
    /// To call a function of PKCS#11 (KMIP 2.0).
    pub const PKCS11: Operation = Operation { number: 0x00000033 };
    /// To begin or end a test of interoperability (KMIP 2.0).
    pub const INTEROP: Operation = Operation { number: 0x00000034 };
    /// To have a client known anew (KMIP 2.0).
    pub const RE_PROVISION: Operation = Operation { number: 0x00000035 };
}

/// What a client that has logged in sends with its requests (KMIP 2.0).
#[derive(Drop)]
#[derive_where(PartialEq)]
pub struct Ticket<A: Allocator = Global> {
    /// What it is.
    pub ticket_type: u32,
    /// Its bytes.
    pub ticket_value: Vec<u8, A>,
}

type TicketParts<A> = (Leaf<u32, 0x42014A>, Leaf<Vec<u8, A>, 0x42014B>);

impl<A: Allocator + Copy> FromParts<A, TicketParts<A>> for Ticket<A> {
    ghost parts = { λ x. (x.ticket_type, x.ticket_value) };

    fn from_parts((ticket_type, ticket_value): Holds<TicketParts<A>, A>) -> Self {
        Ticket {
            ticket_type,
            ticket_value,
        }
    }
}

impl<A: Allocator + Copy> Structure<A> for Ticket<A> {
    ghost rules = { structure true ⟦<TicketParts<A> as PartList<A>>⟧.rules ⟦<Ticket<A> as FromParts<A, TicketParts<A>>>⟧.parts refl ⟦<Ticket<A> as PartialEq>⟧.eq (λ x y e. e) };

    fn read<'b>(scope: &Scope<'b, A>, tag: u32, cursor: &mut Cursor<'b, A>) -> Step<Self, A> {
        read_structure::<TicketParts<A>, Self, A>(scope, tag, true, cursor)
    }

    fn tell_parts<W: Walk<A>>(&self, state: &mut W::State) -> Result<(), AllocError> {
        W::two::<Leaf<u32, 0x42014A>, Leaf<Vec<u8, A>, 0x42014B>>(
            state,
            &self.ticket_type,
            &self.ticket_value,
        )
    }
}

/// What a vendor adds (section 6.16).
#[derive(Drop)]
#[derive_where(PartialEq)]
pub struct MessageExtension<A: Allocator = Global> {
    /// Whose it is.
    pub vendor_identification: String<A>,
    /// Whether who doesn't know it has to refuse the item.
    pub criticality_indicator: bool,
    /// What it is: any items.
    pub vendor_extension: Option<Kept<A>>,
}

type MessageExtensionParts<A> = (
    Leaf<String<A>, 0x42009D>,
    Leaf<bool, 0x420026>,
    Maybe<Of<Kept<A>, 0x42009C>, 0x42009C>,
);

impl<A: Allocator + Copy> FromParts<A, MessageExtensionParts<A>> for MessageExtension<A> {
    ghost parts = { λ x. (x.vendor_identification, x.criticality_indicator, x.vendor_extension) };

    fn from_parts(
        (vendor_identification, criticality_indicator, vendor_extension): Holds<
            MessageExtensionParts<A>,
            A,
        >,
    ) -> Self {
        MessageExtension {
            vendor_identification,
            criticality_indicator,
            vendor_extension,
        }
    }
}

impl<A: Allocator + Copy> Structure<A> for MessageExtension<A> {
    ghost rules = { structure true ⟦<MessageExtensionParts<A> as PartList<A>>⟧.rules ⟦<MessageExtension<A> as FromParts<A, MessageExtensionParts<A>>>⟧.parts refl ⟦<MessageExtension<A> as PartialEq>⟧.eq (λ x y e. e) };

    fn read<'b>(scope: &Scope<'b, A>, tag: u32, cursor: &mut Cursor<'b, A>) -> Step<Self, A> {
        read_structure::<MessageExtensionParts<A>, Self, A>(scope, tag, true, cursor)
    }

    fn tell_parts<W: Walk<A>>(&self, state: &mut W::State) -> Result<(), AllocError> {
        W::three::<
            Leaf<String<A>, 0x42009D>,
            Leaf<bool, 0x420026>,
            Maybe<Of<Kept<A>, 0x42009C>, 0x42009C>,
        >(
            state,
            &self.vendor_identification,
            &self.criticality_indicator,
            &self.vendor_extension,
        )
    }
}

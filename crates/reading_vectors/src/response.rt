//! The response to a request that created a key (KMIP 1.0, section 4.1).

use sample_shapes::names::{
    BatchCount, BatchItem, MajorVersion, MinorVersion, ObjectType, One, Operation, ProtocolVersion,
    ResponseHeader, ResponseMessage, ResponsePayload, ResultStatus, TimeStamp, Two,
    UniqueIdentifier, Zero,
};
use sample_shapes::parts::{
    Choice, LongNumber, NoContent, Number, OneVariant, Structure, Text, ThreeFields, TwoFields,
};

type Version = Structure<ProtocolVersion, TwoFields<MajorVersion, Number, MinorVersion, Number>>;

type Header = Structure<
    ResponseHeader,
    ThreeFields<ProtocolVersion, Version, TimeStamp, LongNumber, BatchCount, Number>,
>;

// An enum of one number.
type Always<N, V> = Choice<N, OneVariant<V, NoContent>>;

type Payload = Structure<
    ResponsePayload,
    TwoFields<ObjectType, Always<ObjectType, Two>, UniqueIdentifier, Text>,
>;

type Item = Structure<
    BatchItem,
    ThreeFields<
        Operation,
        Always<Operation, One>,
        ResultStatus,
        Always<ResultStatus, Zero>,
        ResponsePayload,
        Payload,
    >,
>;

pub type Response = Structure<ResponseMessage, TwoFields<ResponseHeader, Header, BatchItem, Item>>;

pub const RESPONSE: &str =
    "42007B01000000C042007A0100000048420069010000002042006A0200000004000000010000000042006B020000000400000000000000004200920900000008000000004AFBE7C242000D0200000004000000010000000042000F010000006842005C0500000004000000010000000042007F0500000004000000000000000042007C010000004042005705000000040000000200000000420094070000002466633838333364652D373064322D346563652D623036332D66656465336133633539666500000000";

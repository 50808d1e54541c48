//! Rows, written by worked.py: XML and its bytes, and XML that is none.

use kmip_ttlv_items::{Fault, FaultKind};
use kmip_ttlv_xml::{BadElement, WriteError, XmlError};
use plain_xml::Flaw;

/// XML, and the hexadecimal digits of the bytes that it stands for.
pub const READ: [(&str, &str); 28] = [
    ("<ProtocolVersion/>", "4200690100000000"),
    (
        "<ProtocolVersion type=\"Structure\"></ProtocolVersion>",
        "4200690100000000",
    ),
    (
        "<ProtocolVersion><ProtocolVersionMajor type=\"Integer\" value=\"1\"/><ProtocolVersionMinor type=\"Integer\" value=\"0\"/></ProtocolVersion>",
        "420069010000002042006a0200000004000000010000000042006b02000000040000000000000000",
    ),
    (
        "<?xml version=\"1.0\"?>\n<!-- a test -->\n<KMIP>\n  <ProtocolVersion><ProtocolVersionMajor type=\"Integer\" value=\"1\"/><ProtocolVersionMinor type=\"Integer\" value=\"0\"/></ProtocolVersion>\n  <BatchCount type='Integer' value='0x00000002'/>\n</KMIP>\n",
        "420069010000002042006a0200000004000000010000000042006b0200000004000000000000000042000d02000000040000000200000000",
    ),
    ("<KMIP/>", ""),
    (
        "<BatchCount xmlns=\"urn:oasis:tc:kmip:xmlns\" value=\"-3\" type=\"Integer\"/>",
        "42000d0200000004fffffffd00000000",
    ),
    (
        "<TTLV tag=\"0x54abCD\" name=\"Mine\" type=\"Integer\" value=\"2147483647\"/>",
        "54abcd02000000047fffffff00000000",
    ),
    (
        "<TTLV tag=\"BatchCount\" type=\"Integer\" value=\"-2147483648\"/>",
        "42000d02000000048000000000000000",
    ),
    (
        "<CryptographicUsageMask type=\"Integer\" value=\"Sign Verify\"/>",
        "42002c02000000040000000300000000",
    ),
    (
        "<CryptographicUsageMask type=\"Integer\" value=\"Encrypt\"/>",
        "42002c02000000040000000400000000",
    ),
    (
        "<CryptographicUsageMask type=\"Integer\" value=\"12\"/>",
        "42002c02000000040000000c00000000",
    ),
    (
        "<TTLV tag=\"0x540001\" type=\"LongInteger\" value=\"-9223372036854775808\"/>",
        "54000103000000088000000000000000",
    ),
    (
        "<TTLV tag=\"0x540001\" type=\"LongInteger\" value=\"9223372036854775807\"/>",
        "54000103000000087fffffffffffffff",
    ),
    (
        "<TTLV tag=\"0x540001\" type=\"LongInteger\" value=\"0x00000000000000ff\"/>",
        "540001030000000800000000000000ff",
    ),
    (
        "<TTLV tag=\"0x540001\" type=\"BigInteger\" value=\"0xfffffffffffffffe\"/>",
        "5400010400000008fffffffffffffffe",
    ),
    (
        "<TTLV tag=\"0x540001\" type=\"BigInteger\" value=\"0000000000000001ffffffffffffffff\"/>",
        "54000104000000100000000000000001ffffffffffffffff",
    ),
    (
        "<Operation type=\"Enumeration\" value=\"Get\"/>",
        "42005c05000000040000000a00000000",
    ),
    (
        "<Operation type=\"Enumeration\" value=\"0x0000000A\"/>",
        "42005c05000000040000000a00000000",
    ),
    (
        "<BatchOrderOption type=\"Boolean\" value=\"true\"/>",
        "42001006000000080000000000000001",
    ),
    (
        "<BatchOrderOption type=\"Boolean\" value=\"false\"/>",
        "42001006000000080000000000000000",
    ),
    (
        "<UniqueIdentifier type=\"TextString\" value=\"0x&amp;&lt;&quot;&#10;\u{E4} b\"/>",
        "420094070000000a3078263c220ac3a42062000000000000",
    ),
    (
        "<UniqueIdentifier type=\"TextString\" value=\"\"/>",
        "4200940700000000",
    ),
    (
        "<KeyMaterial type=\"ByteString\" value=\"00aBff\"/>",
        "420043080000000300abff0000000000",
    ),
    (
        "<TimeStamp type=\"DateTime\" value=\"2009-11-12T10:47:30+00:00\"/>",
        "4200920900000008000000004afbe7c2",
    ),
    (
        "<TimeStamp type=\"DateTime\" value=\"1969-12-31T23:59:59Z\"/>",
        "4200920900000008ffffffffffffffff",
    ),
    (
        "<TimeStamp type=\"DateTime\" value=\"0x000000004AFBE7C2\"/>",
        "4200920900000008000000004afbe7c2",
    ),
    (
        "<LeaseTime type=\"Interval\" value=\"4294967295\"/>",
        "4200490a00000004ffffffff00000000",
    ),
    (
        "<LeaseTime type=\"Interval\" value=\"0x00000e10\"/>",
        "4200490a0000000400000e1000000000",
    ),
];

/// XML that is none of items, and why.
pub const REFUSED: [(&str, XmlError); 37] = [
    (
        "",
        XmlError::NotXml {
            flaw: Flaw::Unfinished,
            offset: 0,
        },
    ),
    (
        "<KMIP>",
        XmlError::NotXml {
            flaw: Flaw::Unfinished,
            offset: 6,
        },
    ),
    (
        "<a>x</a>",
        XmlError::NotXml {
            flaw: Flaw::Text,
            offset: 3,
        },
    ),
    (
        "<NoTag/>",
        XmlError::NotItem {
            bad: BadElement::Tag,
            offset: 0,
        },
    ),
    (
        "<KMIP><BatchItem/> <KMIP/></KMIP>",
        XmlError::NotItem {
            bad: BadElement::Tag,
            offset: 19,
        },
    ),
    (
        "<!-- <a/> -->\u{E4}<BatchItem/>",
        XmlError::NotXml {
            flaw: Flaw::Text,
            offset: 13,
        },
    ),
    (
        "<!--\u{E4}<a/>--><BatchItem x=''/>",
        XmlError::NotItem {
            bad: BadElement::Attributes,
            offset: 13,
        },
    ),
    (
        "<TTLV type=\"Structure\"/>",
        XmlError::NotItem {
            bad: BadElement::Tag,
            offset: 0,
        },
    ),
    (
        "<TTLV tag=\"0x4200\" type=\"Structure\"/>",
        XmlError::NotItem {
            bad: BadElement::Tag,
            offset: 0,
        },
    ),
    (
        "<BatchItem tag=\"0x42000F\"/>",
        XmlError::NotItem {
            bad: BadElement::Tag,
            offset: 0,
        },
    ),
    (
        "<BatchItem value=\"\"/>",
        XmlError::NotItem {
            bad: BadElement::Attributes,
            offset: 0,
        },
    ),
    (
        "<BatchCount type=\"Integer\"/>",
        XmlError::NotItem {
            bad: BadElement::Attributes,
            offset: 0,
        },
    ),
    (
        "<BatchCount type=\"integer\" value=\"1\"/>",
        XmlError::NotItem {
            bad: BadElement::Typ,
            offset: 0,
        },
    ),
    (
        "<BatchCount type=\"DateTimeExtended\" value=\"1\"/>",
        XmlError::NotItem {
            bad: BadElement::Typ,
            offset: 0,
        },
    ),
    (
        "<BatchItem><BatchCount type=\"Integer\" value=\"\"/></BatchItem>",
        XmlError::NotItem {
            bad: BadElement::Value,
            offset: 11,
        },
    ),
    (
        "<BatchItem><BatchCount type=\"Integer\" value=\"2147483648\"/></BatchItem>",
        XmlError::NotItem {
            bad: BadElement::Value,
            offset: 11,
        },
    ),
    (
        "<BatchItem><BatchCount type=\"Integer\" value=\"-2147483649\"/></BatchItem>",
        XmlError::NotItem {
            bad: BadElement::Value,
            offset: 11,
        },
    ),
    (
        "<BatchItem><BatchCount type=\"Integer\" value=\"+1\"/></BatchItem>",
        XmlError::NotItem {
            bad: BadElement::Value,
            offset: 11,
        },
    ),
    (
        "<BatchItem><BatchCount type=\"Integer\" value=\"0x1\"/></BatchItem>",
        XmlError::NotItem {
            bad: BadElement::Value,
            offset: 11,
        },
    ),
    (
        "<BatchItem><BatchCount type=\"Integer\" value=\"Sign\"/></BatchItem>",
        XmlError::NotItem {
            bad: BadElement::Value,
            offset: 11,
        },
    ),
    (
        "<BatchItem><BatchCount type=\"Integer\" value=\"18446744073709551617\"/></BatchItem>",
        XmlError::NotItem {
            bad: BadElement::Value,
            offset: 11,
        },
    ),
    (
        "<BatchItem><BatchCount type=\"LongInteger\" value=\"9223372036854775808\"/></BatchItem>",
        XmlError::NotItem {
            bad: BadElement::Value,
            offset: 11,
        },
    ),
    (
        "<BatchItem><BatchCount type=\"LongInteger\" value=\"-\"/></BatchItem>",
        XmlError::NotItem {
            bad: BadElement::Value,
            offset: 11,
        },
    ),
    (
        "<BatchItem><BatchCount type=\"LongInteger\" value=\"-9223372036854775809\"/></BatchItem>",
        XmlError::NotItem {
            bad: BadElement::Value,
            offset: 11,
        },
    ),
    (
        "<BatchItem><BatchCount type=\"BigInteger\" value=\"0x1\"/></BatchItem>",
        XmlError::NotItem {
            bad: BadElement::Value,
            offset: 11,
        },
    ),
    (
        "<BatchItem><BatchCount type=\"Enumeration\" value=\"Get\"/></BatchItem>",
        XmlError::NotItem {
            bad: BadElement::Value,
            offset: 11,
        },
    ),
    (
        "<BatchItem><BatchCount type=\"Enumeration\" value=\"10\"/></BatchItem>",
        XmlError::NotItem {
            bad: BadElement::Value,
            offset: 11,
        },
    ),
    (
        "<BatchItem><BatchCount type=\"Boolean\" value=\"1\"/></BatchItem>",
        XmlError::NotItem {
            bad: BadElement::Value,
            offset: 11,
        },
    ),
    (
        "<BatchItem><BatchCount type=\"Boolean\" value=\"0x0000000000000002\"/></BatchItem>",
        XmlError::NotItem {
            bad: BadElement::Value,
            offset: 11,
        },
    ),
    (
        "<BatchItem><BatchCount type=\"ByteString\" value=\"0x00\"/></BatchItem>",
        XmlError::NotItem {
            bad: BadElement::Value,
            offset: 11,
        },
    ),
    (
        "<BatchItem><BatchCount type=\"ByteString\" value=\"0\"/></BatchItem>",
        XmlError::NotItem {
            bad: BadElement::Value,
            offset: 11,
        },
    ),
    (
        "<BatchItem><BatchCount type=\"DateTime\" value=\"2009-11-12\"/></BatchItem>",
        XmlError::NotItem {
            bad: BadElement::Value,
            offset: 11,
        },
    ),
    (
        "<BatchItem><BatchCount type=\"Interval\" value=\"-1\"/></BatchItem>",
        XmlError::NotItem {
            bad: BadElement::Value,
            offset: 11,
        },
    ),
    (
        "<BatchItem><BatchCount type=\"Interval\" value=\"4294967296\"/></BatchItem>",
        XmlError::NotItem {
            bad: BadElement::Value,
            offset: 11,
        },
    ),
    (
        "<BatchItem><BatchCount type=\"Integer\" value=\"1\"><BatchItem/></BatchCount></BatchItem>",
        XmlError::InLeaf { offset: 48 },
    ),
    (
        "<KMIP><BatchCount type=\"Integer\" value=\"1\"> <BatchItem/></BatchCount><NoTag/></KMIP>",
        XmlError::NotItem {
            bad: BadElement::Tag,
            offset: 69,
        },
    ),
    (
        "<KMIP><BatchCount type=\"Integer\" value=\"1\"> <BatchItem/></BatchCount></KMIP>",
        XmlError::InLeaf { offset: 44 },
    ),
];

/// XML, and the digits of the message that it is written of.
pub const WRITTEN: [(&str, &str); 18] = [
    (
        "<BatchItem><ProtocolVersion><ProtocolVersionMajor type=\"Integer\" value=\"1\"/><ProtocolVersionMinor type=\"Integer\" value=\"0\"/></ProtocolVersion></BatchItem>",
        "42000f0100000028420069010000002042006a0200000004000000010000000042006b02000000040000000000000000",
    ),
    ("<BatchItem/>", "42000f0100000000"),
    (
        "<BatchItem><BatchItem/><BatchItem/></BatchItem>",
        "42000f010000001042000f010000000042000f0100000000",
    ),
    (
        "<BatchItem><BatchItem><BatchCount type=\"Integer\" value=\"-1\"/></BatchItem><BatchCount type=\"Integer\" value=\"2147483647\"/></BatchItem>",
        "42000f010000002842000f010000001042000d0200000004ffffffff0000000042000d02000000047fffffff00000000",
    ),
    (
        "<TTLV tag=\"0x540001\"><TTLV tag=\"0x54ABCD\" type=\"Integer\" value=\"0\"/></TTLV>",
        "540001010000001054abcd02000000040000000000000000",
    ),
    (
        "<BatchItem><CryptographicUsageMask type=\"Integer\" value=\"Sign Verify Export\"/></BatchItem>",
        "42000f010000001042002c02000000040000004300000000",
    ),
    (
        "<BatchItem><CryptographicUsageMask type=\"Integer\" value=\"-2147483648\"/></BatchItem>",
        "42000f010000001042002c02000000048000000000000000",
    ),
    (
        "<BatchItem><TTLV tag=\"0x540001\" type=\"LongInteger\" value=\"-9223372036854775808\"/></BatchItem>",
        "42000f010000001054000103000000088000000000000000",
    ),
    (
        "<BatchItem><TTLV tag=\"0x540001\" type=\"BigInteger\" value=\"0xFFFFFFFFFFFFFFFE\"/></BatchItem>",
        "42000f01000000105400010400000008fffffffffffffffe",
    ),
    (
        "<BatchItem><Operation type=\"Enumeration\" value=\"Get\"/></BatchItem>",
        "42000f010000001042005c05000000040000000a00000000",
    ),
    (
        "<BatchItem><Operation type=\"Enumeration\" value=\"0x8000ABCD\"/></BatchItem>",
        "42000f010000001042005c05000000048000abcd00000000",
    ),
    (
        "<BatchItem><BatchOrderOption type=\"Boolean\" value=\"true\"/><BatchOrderOption type=\"Boolean\" value=\"false\"/></BatchItem>",
        "42000f01000000204200100600000008000000000000000142001006000000080000000000000000",
    ),
    (
        "<BatchItem><UniqueIdentifier type=\"TextString\" value=\"&amp;&lt;&quot;&#9;&#10;&#13;'>\u{E4} b\"/></BatchItem>",
        "42000f0100000018420094070000000c263c22090a0d273ec3a4206200000000",
    ),
    (
        "<BatchItem><UniqueIdentifier type=\"TextString\" value=\"\"/></BatchItem>",
        "42000f01000000084200940700000000",
    ),
    (
        "<BatchItem><KeyMaterial type=\"ByteString\" value=\"00ABFF\"/></BatchItem>",
        "42000f0100000010420043080000000300abff0000000000",
    ),
    (
        "<BatchItem><TimeStamp type=\"DateTime\" value=\"2009-11-12T10:47:30+00:00\"/></BatchItem>",
        "42000f01000000104200920900000008000000004afbe7c2",
    ),
    (
        "<BatchItem><TimeStamp type=\"DateTime\" value=\"0x7FFFFFFFFFFFFFFF\"/></BatchItem>",
        "42000f010000001042009209000000087fffffffffffffff",
    ),
    (
        "<BatchItem><LeaseTime type=\"Interval\" value=\"4294967295\"/></BatchItem>",
        "42000f01000000104200490a00000004ffffffff00000000",
    ),
];

/// The digits of bytes of which no XML is written, and why.
pub const UNWRITTEN: [(&str, WriteError); 4] = [
    (
        "",
        WriteError::Malformed(Fault {
            offset: 0,
            kind: FaultKind::Cut,
        }),
    ),
    (
        "42000d02000000040000000100000000",
        WriteError::Malformed(Fault {
            offset: 0,
            kind: FaultKind::NoStructure,
        }),
    ),
    (
        "42000f0100000020420094070000000161000000000000004200940700000003c3a4010000000000",
        WriteError::NotHeld { offset: 34 },
    ),
    (
        "42000f01000000104200940700000003efbfbf0000000000",
        WriteError::NotHeld { offset: 16 },
    ),
];

/// Documents, and a line of digits for each of their messages; a line of which no XML is written is passed.
pub const DOCUMENTS: [(&str, &str); 5] = [
    ("<KMIP>\n</KMIP>\n", ""),
    ("<KMIP>\n<BatchItem/>\n</KMIP>\n", "42000f0100000000\n"),
    (
        "<KMIP>\n<BatchItem><ProtocolVersion><ProtocolVersionMajor type=\"Integer\" value=\"1\"/><ProtocolVersionMinor type=\"Integer\" value=\"0\"/></ProtocolVersion></BatchItem>\n<BatchItem/>\n<BatchItem><BatchCount type=\"Integer\" value=\"7\"/></BatchItem>\n</KMIP>\n",
        "42000f0100000028420069010000002042006a0200000004000000010000000042006b02000000040000000000000000\n42000f0100000000\n42000f010000001042000d02000000040000000700000000\n",
    ),
    (
        "<KMIP>\n<BatchItem/>\n<BatchItem><ProtocolVersion><ProtocolVersionMajor type=\"Integer\" value=\"1\"/><ProtocolVersionMinor type=\"Integer\" value=\"0\"/></ProtocolVersion></BatchItem>\n</KMIP>\n",
        "42000f0100000000\n00\n42000f010000001042009407000000010100000000000000\n42000f0100000028420069010000002042006a0200000004000000010000000042006b02000000040000000000000000\n",
    ),
    (
        "<KMIP>\n<TTLV tag=\"0x540001\"><TTLV tag=\"0x54ABCD\"/></TTLV>\n<BatchItem/>\n</KMIP>\n",
        "540001010000000854abcd0100000000\n42000f0100000000\n",
    ),
];

/// A document that is read without words, and the lines of its messages.
pub const PLAIN: (&str, &str) = (
    "<KMIP>\n<TTLV tag=\"0x540001\"><TTLV tag=\"0x540002\" type=\"TextString\" value=\"a\"/></TTLV>\n<TTLV tag=\"0x540001\"><TTLV tag=\"0x540002\" type=\"TextString\" value=\"a\"/></TTLV>\n</KMIP>\n",
    "540001010000001054000207000000016100000000000000\n540001010000001054000207000000016100000000000000\n",
);

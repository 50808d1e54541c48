//! Names of enumerations' values. Their table has the form of a table of tags: in place of a tag's name
//! is the list of its values, separated by `;`, each a hexadecimal number, `=` and a name.

ghost use Rattle.std.specs.Prelude.{◌≡◌, option_map, IfOk, IfErr};
ghost use Rattle.kmip_ttlv_util.specs.TagNames.{name_in};
ghost use Rattle.kmip_ttlv_names.specs.NameTables.{names_of};
ghost use Rattle.kmip_ttlv_names.specs.SecretTags.{NamesSecrets};
ghost use Rattle.kmip_ttlv_names.specs.ValueNames.{name_of_value, entry_name};

use crate::enumerations::STANDARD_VALUES;
use crate::masks::STANDARD_MASKS;
use crate::secrets::STANDARD_SECRETS;
use crate::table::{TableError, tag_names};
use kmip_ttlv_types::number;
use kmip_ttlv_util::LentTagMap;
use std::alloc::Allocator;

/// The name in an entry of a list, if the entry is for this value.
fn entry_name(entry: &str, value: u32) -> Option<&str>
    ensures { option_map (λ s. s.now) result ≡ entry_name value entry.now }
{
    let Some((digits, name)) = entry.split_once('=') else {
        return None;
    };
    let named = number(digits) == Some(value);
    if named { Some(name) } else { None }
}

/// Returns the name of a value in a list of values such as `1=Create;2=Create Key Pair`: that of the first
/// entry with its number. Never allocates.
///
/// ```
/// assert!(rt; value_name("1=Create;2=Create Key Pair", 2) == Some("Create Key Pair"));
/// ```
pub fn value_name(list: &str, value: u32) -> Option<&str>
    ensures { option_map (λ s. s.now) result ≡ name_of_value value list.now }
{
    let mut rest = list;
    'entries: while let Some((entry, more)) = rest.split_once(';') {
        if let Some(name) = entry_name(entry, value) {
            return Some(name);
        }
        rest = more;
    }
    entry_name(rest, value)
}

/// Returns the lists of values of the enumerations in the KMIP specifications (9.1.3.2), by tag.
///
/// The only error is `OutOfMemory`.
///
/// ```
/// let values = standard_values(alloc)?;
/// let list = values.get(&TtlvTag::from([0x42, 0x00, 0x8D])).copied().unwrap_or("");
/// assert!(rt; value_name(list, 1) == Some("Pre-Active"));
/// ```
pub fn standard_values<A: Allocator + Copy>(alloc: A) -> Result<LentTagMap<'static, A>, TableError>
    ensures names { IfOk result (λ lists. name_in lists ≡ names_of STANDARD_VALUES.now) }
    ensures memory { IfErr result (λ e. e ≡ TableError.OutOfMemory) }
{
    tag_names(alloc, STANDARD_VALUES)
}

/// Returns the lists of bits of the masks in the KMIP specifications (9.1.3.3), by tag, for [`value_name`].
///
/// The only error is `OutOfMemory`.
///
/// ```
/// let masks = standard_masks(alloc)?;
/// let usage = masks.get(&TtlvTag::from([0x42, 0x00, 0x2C])).copied().unwrap_or("");
/// assert!(rt; value_name(usage, 4) == Some("Encrypt"));
/// ```
pub fn standard_masks<A: Allocator + Copy>(alloc: A) -> Result<LentTagMap<'static, A>, TableError>
    ensures names { IfOk result (λ lists. name_in lists ≡ names_of STANDARD_MASKS.now) }
    ensures memory { IfErr result (λ e. e ≡ TableError.OutOfMemory) }
{
    tag_names(alloc, STANDARD_MASKS)
}

/// A law: `STANDARD_SECRETS` has a line for each secret tag of the KMIP specifications, and for no other tag.
pub fn secrets_are_named()
    ensures { NamesSecrets (names_of STANDARD_SECRETS.now) }
{}

/// Returns the secret tags of the KMIP specifications, each with its name: those whose items can hold a key, data to encrypt
/// or decrypt, or proof of identity. A structure is secret with all that is in it.
///
/// The only error is `OutOfMemory`.
///
/// ```
/// let secrets = standard_secrets(alloc)?;
/// assert!(rt; secrets.get(&TtlvTag::from([0x42, 0x00, 0xA1])).copied() == Some("Password"));
/// ```
pub fn standard_secrets<A: Allocator + Copy>(alloc: A) -> Result<LentTagMap<'static, A>, TableError>
    ensures names { IfOk result (λ tags. name_in tags ≡ names_of STANDARD_SECRETS.now) }
    ensures secrets { IfOk result (λ tags. NamesSecrets (name_in tags)) }
    ensures memory { IfErr result (λ e. e ≡ TableError.OutOfMemory) }
{
    tag_names(alloc, STANDARD_SECRETS)
}

//! What is known of an object, as attributes (KMIP 1.0, section 3).

ghost use Rattle.std.specs.Prelude.{◌≡◌, [], ◌∷◌, IfOk, OnOk, bytes_eq, codes, map, string_bytes};
ghost use Rattle.std.specs.List.{list_any};
ghost use Rattle.kmip_operations.specs.Listing.{a_date, a_number, an_algorithm, asked_of, dates_of, if_known, is_asked, meaning_of, name_at, names_from, own, said_of_it, saying_of};
ghost use Rattle.kmip_operations.specs.Listings.{Adds};

use crate::about::About;
use crate::objects::identifier;
use kmip_memory_store::object::{Dates, Object};
use kmip_messages::attribute::{Attribute, AttributeStructure, AttributeValue};
use kmip_messages::structures::Name;
use kmip_messages::values::{CryptographicAlgorithm, State};
use kmip_ttlv::reader::DateTime;
use std::alloc::{AllocError, Allocator};

/// Attributes of an object, of which some are left out.
#[derive(Drop)]
pub struct Listing<'n, A: Allocator + Copy> {
    alloc: A,
    // The names of those that are asked for; all are, if there are none.
    names: &'n [String<A>],
    attributes: Vec<Attribute<A>, A>,
}

// Whether a name is among these.
fn is_among<A: Allocator>(names: &[String<A>], name: &str) -> bool
    ensures { result ≡ list_any (λ asked. bytes_eq (string_bytes asked) name.now) names.now }
{
    names.iter().any(|asked| asked.as_str() == name)
}

// Whether an attribute of this name is asked for.
fn is_asked<A: Allocator>(names: &[String<A>], name: &str) -> bool
    ensures { result ≡ is_asked names.now name.now }
{
    match names {
        [] => true,
        _ => is_among(names, name),
    }
}

impl<A: Allocator + Copy> Listing<'_, A> {
    // Lists an attribute, if it is asked for.
    fn add(
        &mut self,
        name: &str,
        index: Option<i32>,
        value: AttributeValue<A>,
    ) -> Result<(), AllocError>
        ensures { OnOk result (Adds (record { name = name.now; index = index; meaning = meaning_of value } ∷ []) self.old self.new) }
    {
        if !is_asked(self.names, name) {
            return Ok(());
        }
        let name = name.to_string(self.alloc)?;
        self.attributes.push(Attribute { name, index, value })?;
        Ok(())
    }

    // Lists a number, if it is known.
    fn number(&mut self, name: &str, value: Option<i32>) -> Result<(), AllocError>
        ensures { OnOk result (Adds (if_known name.now a_number value) self.old self.new) }
    {
        match value {
            Some(value) => self.add(name, None, AttributeValue::Integer(value)),
            None => Ok(()),
        }
    }

    // Lists a date, if it is known.
    fn date(&mut self, name: &str, value: Option<i64>) -> Result<(), AllocError>
        ensures { OnOk result (Adds (if_known name.now a_date value) self.old self.new) }
    {
        match value {
            Some(value) => self.add(name, None, AttributeValue::DateTime(DateTime(value))),
            None => Ok(()),
        }
    }

    // Lists an algorithm, if it is known.
    fn algorithm(&mut self, algorithm: Option<CryptographicAlgorithm>) -> Result<(), AllocError>
        ensures { OnOk result (Adds (if_known (codes "Cryptographic Algorithm") an_algorithm algorithm) self.old self.new) }
    {
        match algorithm {
            Some(algorithm) => {
                let value = AttributeValue::CryptographicAlgorithm(algorithm);
                self.add("Cryptographic Algorithm", None, value)
            }
            None => Ok(()),
        }
    }

    // Lists a name of an object, before which it has so many.
    fn name<K: Allocator>(&mut self, index: usize, name: &Name<K>) -> Result<(), AllocError>
        ensures { OnOk result (Adds (name_at index name.now ∷ []) self.old self.new) }
    {
        let value = name.value.as_str().to_string(self.alloc)?;
        let name = Name {
            value,
            name_type: name.name_type,
        };
        let index = i32::try_from(index).unwrap_or(i32::MAX);
        let value = AttributeValue::Structure(AttributeStructure::Name(name));
        self.add("Name", Some(index), value)
    }

    // Lists the names of an object.
    fn names<K: Allocator>(&mut self, names: &[Name<K>]) -> Result<(), AllocError>
        ensures { OnOk result (Adds (names_from 0 names.now) self.old self.new) }
    {
        for (index, name) in names.iter().enumerate() {
            self.name(index, name)?;
        }
        Ok(())
    }

    // Lists what a client said of an object, but for its names.
    fn about<K: Allocator>(&mut self, about: &About<K>) -> Result<(), AllocError>
        ensures { OnOk result (Adds (said_of_it about.now) self.old self.new) }
    {
        let object_type = AttributeValue::ObjectType(about.object_type);
        self.add("Object Type", None, object_type)?;
        self.algorithm(about.algorithm)?;
        self.number("Cryptographic Length", about.length)?;
        self.number("Cryptographic Usage Mask", about.usage_mask)?;
        Ok(())
    }

    // Lists when what happened to an object.
    fn dates(&mut self, dates: Dates) -> Result<(), AllocError>
        ensures { OnOk result (Adds (dates_of dates) self.old self.new) }
    {
        self.date("Initial Date", Some(dates.initial))?;
        self.date("Activation Date", dates.activation)?;
        self.date("Deactivation Date", dates.deactivation)?;
        self.date("Compromise Date", dates.compromise)?;
        self.date("Destroy Date", dates.destroy)?;
        self.date("Last Change Date", Some(dates.last_change))?;
        Ok(())
    }
}

/// The attributes of an object, of these names; all of them, if there are none. Fails if memory runs out.
pub fn attributes<K: Allocator, A: Allocator + Copy>(
    alloc: A,
    id: usize,
    object: &Object<About<K>, K>,
    names: &[String<A>],
) -> Result<Vec<Attribute<A>, A>, AllocError>
    ensures { IfOk result (λ attributes. map saying_of attributes.items ≡ asked_of names.now (own id object.now)) }
{
    let mut listing = Listing {
        alloc,
        names,
        attributes: Vec::new(alloc),
    };
    let unique_identifier = AttributeValue::TextString(identifier(alloc, id)?);
    listing.add("Unique Identifier", None, unique_identifier)?;
    listing.names(object.about.names.as_slice())?;
    listing.about(&object.about)?;
    let state = State {
        number: object.state.number(),
    };
    listing.add("State", None, AttributeValue::State(state))?;
    listing.dates(object.dates)?;
    let Listing {
        alloc: _,
        names: _,
        attributes,
    } = listing;
    Ok(attributes)
}

/// All attributes of an object. Fails if memory runs out.
pub fn all_attributes<K: Allocator, A: Allocator + Copy>(
    alloc: A,
    id: usize,
    object: &Object<About<K>, K>,
) -> Result<Vec<Attribute<A>, A>, AllocError>
    ensures { IfOk result (λ attributes. map saying_of attributes.items ≡ own id object.now) }
{
    let none = Vec::new(alloc);
    let attributes = attributes(alloc, id, object, none.as_slice())?;
    Ok(attributes)
}

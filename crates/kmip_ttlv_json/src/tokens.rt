//! The tokens of a text, and how many of them were taken.

ghost use Rattle.std.specs.Prelude.{◌≡◌, ◌∷◌, [], ◌<◌, ◌^◌, Some, None, MatchOption, MatchResult, OnOk, option_map};
ghost use Rattle.std.specs.Bool.{MatchBool};
ghost use Rattle.json.specs.Json.{after_end_array, read_key};
ghost use Rattle.json.specs.Reads.{token_of};
ghost use Rattle.kmip_ttlv_json.specs.declared.read.Stop.TheVariants.{NotJson as IsNotJson};
ghost use Rattle.kmip_ttlv_json.specs.Spots.{all_of};

use crate::read::Stop;
use json::{Reader, Token};

/// The tokens that are left of a text, and how many were taken.
#[derive(Drop)]
pub struct Tokens<'t> {
    pub reader: Reader<'t>,
    pub taken: usize,
}

impl<'t> Tokens<'t> {
    /// Takes the next token.
    pub fn next(&mut self) -> Option<Token<'t>>
        requires { all_of self.old < 2 ^ 64 }
        ensures value { MatchOption result ((self.old.reader ≡ []) × (self.new.reader ≡ []))
            (λ t. self.old.reader ≡ token_of t ∷ self.new.reader) }
        ensures counted { all_of self.new ≡ all_of self.old }
    {
        let token = self.reader.next()?;
        self.taken += 1;
        Some(token)
    }

    /// Takes the name of a member, or the end of an object.
    pub fn next_key(&mut self) -> Result<Option<&'t str>, Stop>
        requires { all_of self.old < 2 ^ 64 }
        ensures value { MatchResult result
            (λ k. read_key self.old.reader ≡ Some (option_map (λ s. s.now) k, self.new.reader))
            (λ stop. (read_key self.old.reader ≡ None) × (stop ≡ IsNotJson self.old.taken)) }
        ensures counted { OnOk result (all_of self.new ≡ all_of self.old) }
    {
        let at = self.taken;
        match self.reader.next_key() {
            Ok(key) => {
                self.taken += 1;
                Ok(key)
            }
            Err(_) => Err(Stop::NotJson { at }),
        }
    }

    /// Takes the end of an array, if it is next.
    pub fn take_end_array(&mut self) -> bool
        requires { all_of self.old < 2 ^ 64 }
        ensures value { MatchBool result (after_end_array self.old.reader ≡ Some self.new.reader)
            ((after_end_array self.old.reader ≡ None) × (self.new ≡ self.old)) }
        ensures counted { all_of self.new ≡ all_of self.old }
    {
        if !self.reader.take_end_array() {
            return false;
        }
        self.taken += 1;
        true
    }
}

//! The tokens of a text, taken one at a time from the left.

ghost use Rattle.std.specs.Prelude.{◌≡◌, ◌==◌, IsTrue, length, if◌then◌else◌};
ghost use Rattle.lg_vread.specs.Lexing.{tokens_of, left, behind, is_fixed};
ghost use Rattle.lg_vread.specs.Reading.{Gives, Goes, Tries, is_at, tail, after, name_at, number_at, constant_at, operator_at, after_number, after_name};
ghost use Rattle.lg_vtree.specs.Token.{is_name};

use crate::class::split_token;
use crate::fault::ReadFault;
use crate::spelling::{constant_of, is_name, number_of, operator_of};
use lg_text::Text;
use lg_vtree::{Constant, Name, Operator};
use std::alloc::Global;

/// A text from its first token on that is not taken yet.
#[derive(Drop)]
pub struct Reader<'a> {
    token: &'a [u8],
    rest: &'a [u8],
}

impl<'a> Reader<'a> {
    /// A reader of a whole text.
    pub fn new(bytes: &'a [u8]) -> Reader<'a>
        ensures { left result ≡ tokens_of bytes.now }
    {
        let (token, rest) = split_token(bytes);
        Reader { token, rest }
    }

    /// Takes the first token.
    fn advance(&mut self)
        ensures { left self.new ≡ behind self.old }
    {
        let (token, rest) = split_token(self.rest);
        self.token = token;
        self.rest = rest;
    }

    /// Whether no token is left.
    pub fn is_done(&self) -> bool
        ensures { result ≡ (length (left self.now) == 0) }
    {
        self.token.is_empty()
    }

    /// Whether this reserved word or sign comes next.
    pub fn is_at(&self, text: &str) -> bool
        requires { IsTrue (is_fixed text.now) }
        ensures { result ≡ is_at text.now (left self.now) }
    {
        self.token == text.as_bytes()
    }

    /// Takes this reserved word or sign, where it comes next.
    pub fn take(&mut self, text: &str) -> bool
        requires { IsTrue (is_fixed text.now) }
        ensures found { result ≡ is_at text.now (left self.old) }
        ensures rest { left self.new ≡ (if result then tail (left self.old) else left self.old) }
    {
        let found = self.is_at(text);
        if found {
            self.advance();
        }
        found
    }

    /// Takes this reserved word or sign, which must come next.
    pub fn expect(&mut self, text: &str) -> Result<(), ReadFault>
        requires { IsTrue (is_fixed text.now) }
        ensures { Goes result (left self.new) (after text.now (left self.old)) }
    {
        if self.take(text) {
            Ok(())
        } else {
            Err(ReadFault::NotSubset)
        }
    }

    /// Takes a name, which must come next.
    pub fn name(&mut self, alloc: Global) -> Result<Name, ReadFault>
        ensures { Gives result (left self.new) (name_at (left self.old)) }
    {
        if !is_name(self.token) {
            return Err(ReadFault::NotSubset);
        }
        let name = Name::new(Text::from_ascii(self.token.to_vec(alloc)?));
        self.advance();
        Ok(name)
    }

    /// Takes this name, which must come next.
    pub fn expect_name(&mut self, name: &str) -> Result<(), ReadFault>
        requires { IsTrue (is_name name.now) }
        ensures { Goes result (left self.new) (after_name name.now (left self.old)) }
    {
        if self.token == name.as_bytes() {
            self.advance();
            Ok(())
        } else {
            Err(ReadFault::NotSubset)
        }
    }

    /// Takes a number, where one comes next.
    pub fn try_number(&mut self) -> Option<u128>
        ensures { Tries result (left self.old) (left self.new) (number_at (left self.old)) }
    {
        let number = number_of(self.token)?;
        self.advance();
        Some(number)
    }

    /// Takes a number, which must come next.
    pub fn number(&mut self) -> Result<u128, ReadFault>
        ensures { Gives result (left self.new) (number_at (left self.old)) }
    {
        self.try_number().ok_or(ReadFault::NotSubset)
    }

    /// Takes this number, which must come next.
    #[tactic(auto, unfolding(crate::specs::Reading::after_number))]
    pub fn expect_number(&mut self, number: u128) -> Result<(), ReadFault>
        ensures { Goes result (left self.new) (after_number number (left self.old)) }
    {
        if self.number()? == number {
            Ok(())
        } else {
            Err(ReadFault::NotSubset)
        }
    }

    /// Takes a constant, where one comes next.
    pub fn try_constant(&mut self) -> Option<Constant>
        ensures { Tries result (left self.old) (left self.new) (constant_at (left self.old)) }
    {
        let constant = constant_of(self.token)?;
        self.advance();
        Some(constant)
    }
    /// Takes a constant, which must come next.
    pub fn constant(&mut self) -> Result<Constant, ReadFault>
        ensures { Gives result (left self.new) (constant_at (left self.old)) }
    {
        self.try_constant().ok_or(ReadFault::NotSubset)
    }

    /// Takes an operator, which must come next.
    pub fn operator(&mut self) -> Result<Operator, ReadFault>
        ensures { Gives result (left self.new) (operator_at (left self.old)) }
    {
        match operator_of(self.token) {
            Some(operator) => {
                self.advance();
                Ok(operator)
            }
            None => Err(ReadFault::NotSubset),
        }
    }
}

//! What an open handle holds: a session and the text of its last answer.
ghost use Rattle.std.specs.Prelude.{◌≡◌, true, false, [], ◌∷◌, ◌++◌, None, IfOk, OnOk, OnErr, IsOk, option_map, length};
ghost use Rattle.dom_model.specs.DocumentMachine.{first_world, step, finish};
ghost use Rattle.dom_text.specs.Text.{output_text};
ghost use Rattle.dom_text.specs.Decode.{decode};
ghost use Rattle.dom_text.specs.Readers.{owner_of as spec_owner_of};
ghost use Rattle.dom_c.specs.Calls.{text_seen_by};

use dom_engine::{Session, lines_seen_by};
use dom_reader::owner_of;
use std::alloc::{AllocError, Global};
use std::marker::Model;

/// A session, and the text of its last answer, which is empty before its first line. The bytes are that text, with a 0 after it if it was
/// shown in place. After a call of the session has run out of memory, every call answers `AllocError`.
#[derive(Drop)]
pub struct Held {
    session: Session,
    bytes: Vec<u8>,
    size: usize,
    has_failed: bool,
}

impl Model for Held {
    ghost use Rattle.std.specs.Prelude.{◌≡◌, ◌<◌, ◌≤◌, [], ◌∷◌, ◌++◌, length, take};
    ghost use Rattle.std.specs.Coded.{codes};
    ghost use Rattle.std_alloc.specs.Vec.{vec_ptr};
    ghost use Rattle.dom_model.specs.Codes.{trees_code};
    ghost use Rattle.dom_c.specs.State.{HeldState};

    ghost Value = { HeldState };

    ghost coded = { Prim.hlevel (codes, trees_code) };

    ghost view = { λ h. record {
      world = h.session.world;
      text = take h.size h.bytes.items;
      at = vec_ptr h.bytes;
      bytes = h.bytes.items;
      has_failed = h.has_failed;
    } };

    ghost invariant = { λ h. (h.size ≤ length h.bytes.items) × (h.size < length h.bytes.items → h.bytes.items ≡ take h.size h.bytes.items ++ 0 ∷ []) };
}

impl Held {
    /// A session before its first line.
    pub(crate) fn new(alloc: Global) -> Result<Box<Held>, AllocError>
        ensures { IfOk result (λ held. (held.value.world ≡ first_world) × (held.value.text ≡ []) × (held.value.has_failed ≡ false)) }
    {
        let held = Held {
            session: Session::new(alloc)?,
            bytes: Vec::new(alloc),
            size: 0,
            has_failed: false,
        };
        Ok(Box::new(alloc, held)?)
    }

    /// Runs a line, keeps the text that answers it, and gives its length.
    pub(crate) fn line(&mut self, line: &[u8]) -> Result<usize, AllocError>
        ensures was { OnOk result (self.old.has_failed ≡ false) }
        ensures world { OnOk result (self.new.world ≡ (step self.old.world (decode line.now)).0) }
        ensures text { OnOk result (self.new.text ≡ output_text (step self.old.world (decode line.now)).1) }
        ensures ok { OnOk result (self.new.has_failed ≡ false) }
        ensures size { IfOk result (λ size. size ≡ length self.new.text) }
        ensures err { OnErr result (self.new.has_failed ≡ true) }
    {
        if self.has_failed {
            return Err(AllocError);
        }
        let answer = self.session.line(line);
        self.keep(answer)
    }

    /// Ends an open turn, keeps the text of its ending, and gives its length.
    pub(crate) fn finish(&mut self) -> Result<usize, AllocError>
        ensures was { OnOk result (self.old.has_failed ≡ false) }
        ensures world { OnOk result (self.new.world ≡ (finish self.old.world).0) }
        ensures text { OnOk result (self.new.text ≡ output_text (finish self.old.world).1) }
        ensures closed { OnOk result (self.new.world.turn ≡ None) }
        ensures ok { OnOk result (self.new.has_failed ≡ false) }
        ensures size { IfOk result (λ size. size ≡ length self.new.text) }
        ensures err { OnErr result (self.new.has_failed ≡ true) }
    {
        if self.has_failed {
            return Err(AllocError);
        }
        let answer = self.session.finish();
        self.keep(answer)
    }

    /// Keeps the text of an answer, and gives its length, or says that memory ran out.
    fn keep(&mut self, answer: Result<Vec<u8>, AllocError>) -> Result<usize, AllocError>
        ensures world { self.new.world ≡ self.old.world }
        ensures answered { OnOk result (IsOk answer) }
        ensures text { IfOk answer (λ text. self.new.text ≡ text.items) }
        ensures ok { OnOk result (self.new.has_failed ≡ self.old.has_failed) }
        ensures size { IfOk result (λ size. size ≡ length self.new.text) }
        ensures err { OnErr result (self.new.has_failed ≡ true) }
    {
        match answer {
            Ok(text) => {
                self.size = text.len();
                self.bytes = text;
                Ok(self.size)
            }
            Err(error) => {
                self.has_failed = true;
                Err(error)
            }
        }
    }

    /// The size of the text of the last answer.
    pub(crate) fn size(&self) -> usize
        ensures { result ≡ length self.now.text }
    {
        self.size
    }

    /// The text of the last answer.
    pub(crate) fn text(&self) -> Result<&[u8], AllocError>
        ensures ok { OnOk result (self.now.has_failed ≡ false) }
        ensures text { IfOk result (λ text. text.now ≡ self.now.text) }
        ensures err { OnErr result (self.now.has_failed ≡ true) }
    {
        if self.has_failed {
            return Err(AllocError);
        }
        Ok(&self.bytes[..self.size])
    }

    /// Where the text of the last answer stands, with a 0 after it. If memory runs out for the 0, the session goes on.
    pub(crate) fn shown(&mut self) -> Result<*const u8, AllocError>
        ensures was { OnOk result (self.old.has_failed ≡ false) }
        ensures at { IfOk result (λ at. at ≡ self.new.at) }
        ensures bytes { OnOk result (self.new.bytes ≡ self.old.text ++ 0 ∷ []) }
        ensures world { self.new.world ≡ self.old.world }
        ensures text { self.new.text ≡ self.old.text }
        ensures same { self.new.has_failed ≡ self.old.has_failed }
    {
        if self.has_failed {
            return Err(AllocError);
        }
        if self.bytes.len() == self.size {
            self.bytes.push(0)?;
        }
        Ok(self.bytes.as_ptr())
    }

    /// The lines of the last answer that begin with an owner's word, or `None` if the word is not the word of an owner.
    pub(crate) fn seen_by(
        &mut self,
        alloc: Global,
        word: &[u8],
    ) -> Result<Option<Vec<u8>>, AllocError>
        ensures was { OnOk result (self.old.has_failed ≡ false) }
        ensures same { OnOk result (self.new ≡ self.old) }
        ensures text { IfOk result (λ seen. option_map (λ text. text.items) seen ≡ text_seen_by (spec_owner_of word.now) self.old.text) }
        ensures err { OnErr result (self.new.has_failed ≡ true) }
    {
        if self.has_failed {
            return Err(AllocError);
        }
        let Some(owner) = owner_of(word) else {
            return Ok(None);
        };
        let seen = lines_seen_by(alloc, owner, &self.bytes[..self.size]);
        self.has_failed = seen.is_err();
        Ok(Some(seen?))
    }
}

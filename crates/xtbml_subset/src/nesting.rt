ghost use Rattle.std.specs.Prelude.{◌≡◌, ◌≤◌, ◌<◌, ◌-◌, ℕ, List, Option, Some, None, [], ◌∷◌, length, map, MatchBool, IfSome, IfOk, IfErr, OnOk};
ghost use Rattle.std.specs.Option.{option_map, option_copied};
ghost use Rattle.xtbml_subset.specs.inside.Machine.{State, after_piece, after_outside, outside, past};
ghost use Rattle.xtbml_subset.specs.Pieces.{Tag, start, whole, finish, declaration};
ghost use Rattle.xtbml_subset.specs.inside.Tokens.{piece_of};
ghost use Rattle.xtbml_subset.specs.inside.Elements.{elements_at};
ghost use Rattle.xtbml_subset.specs.inside.Searches.{IsPath};
ghost use Rattle.xtbml_subset.specs.inside.Views.{path_of};
ghost use Rattle.xtbml_subset.specs.inside.Walk.{state_of, after_mark, fault_at, fault_place, is_ended, walk_at};

use crate::class::{Class, is_in};
use crate::passing::Passing;
use crate::path::ElementPath;
use crate::state::{DEEPEST, Nesting, Phase};
use crate::text::{after_text, skip};
use crate::token::{Token, next_token};

impl<'a> Nesting<'a> {
    fn new(bytes: &'a [u8]) -> Nesting<'a>
        ensures { state_of result ≡ outside Phase.Opening }
    {
        Nesting {
            phase: Phase::Opening,
            names: [bytes; DEEPEST],
            depth: 0,
        }
    }

    /// Opens an element in another one, if the depth allows it.
    fn push(&mut self, name: &'a [u8])
        requires { self.old.depth < 64 }
        ensures { state_of self.new ≡ record { phase = self.old.phase; names = name.now ∷ (state_of self.old).names } }
    {
        self.names[self.depth] = name;
        self.depth += 1;
    }

    /// Whether the name is that of the innermost element, which is then closed.
    fn pop(&mut self, name: &[u8]) -> bool
        requires { 0 < self.old.depth }
        ensures { MatchBool result
            (after_piece (state_of self.old) (finish name.now) ≡ Some (state_of self.new))
            (after_piece (state_of self.old) (finish name.now) ≡ None) }
    {
        let last = self.names[self.depth - 1];
        if name != last {
            return false;
        }
        self.depth -= 1;
        true
    }

    /// Whether the root may start here.
    fn starts_root(&mut self) -> bool
        requires { self.old.depth ≡ 0 }
        ensures whole_tag { (tag : Tag) → MatchBool result
            (after_piece (state_of self.old) (whole tag) ≡ Some (state_of self.new))
            (after_piece (state_of self.old) (whole tag) ≡ None) }
        ensures start_tag { (tag : Tag) → MatchBool result
            (after_piece (state_of self.old) (start tag) ≡ Some (record { phase = self.new.phase; names = tag.name ∷ (state_of self.new).names }))
            (after_piece (state_of self.old) (start tag) ≡ None) }
        ensures depth { self.new.depth ≡ 0 }
    {
        match self.phase {
            Phase::Opening | Phase::Prolog => {
                self.phase = Phase::Epilog;
                true
            }
            Phase::Epilog => false,
        }
    }

    /// Whether an element may start in another one here.
    fn has_room(&self) -> bool
        requires { 0 < self.now.depth }
        ensures room { MatchBool result (self.now.depth < 64) (64 ≤ self.now.depth) }
        ensures whole_tag { (tag : Tag) → MatchBool result
            (after_piece (state_of self.now) (whole tag) ≡ Some (state_of self.now))
            (after_piece (state_of self.now) (whole tag) ≡ None) }
        ensures start_tag { (tag : Tag) → MatchBool result
            (after_piece (state_of self.now) (start tag) ≡ Some (record { phase = self.now.phase; names = tag.name ∷ (state_of self.now).names }))
            (after_piece (state_of self.now) (start tag) ≡ None) }
    {
        self.depth < DEEPEST
    }

    fn take_outside(&mut self, token: Token<'a>) -> bool
        requires { self.old.depth ≡ 0 }
        ensures { MatchBool result
            (after_piece (state_of self.old) (piece_of token.entry) ≡ Some (state_of self.new))
            (after_piece (state_of self.old) (piece_of token.entry) ≡ None) }
    {
        match token {
            Token::Byte(byte) => is_in(Class::White, byte),
            Token::Comment => {
                self.phase = past(self.phase);
                true
            }
            Token::Declaration => self.declares(),
            Token::Whole(_) => self.starts_root(),
            Token::Start(tag) => {
                if !self.starts_root() {
                    return false;
                }
                self.push(tag.name);
                true
            }
            Token::End(_) => false,
        }
    }

    /// Whether a declaration may stand here.
    fn declares(&mut self) -> bool
        requires { self.old.depth ≡ 0 }
        ensures { MatchBool result
            (after_piece (state_of self.old) declaration ≡ Some (state_of self.new))
            (after_piece (state_of self.old) declaration ≡ None) }
    {
        match self.phase {
            Phase::Opening => {
                self.phase = Phase::Prolog;
                true
            }
            Phase::Prolog | Phase::Epilog => false,
        }
    }

    fn take_inside(&mut self, token: Token<'a>) -> bool
        requires { 0 < self.old.depth }
        ensures { MatchBool result
            (after_piece (state_of self.old) (piece_of token.entry) ≡ Some (state_of self.new))
            (after_piece (state_of self.old) (piece_of token.entry) ≡ None) }
    {
        match token {
            Token::Byte(_) | Token::Comment => true,
            Token::Declaration => false,
            Token::Whole(_) => self.has_room(),
            Token::Start(tag) => {
                if !self.has_room() {
                    return false;
                }
                self.push(tag.name);
                true
            }
            Token::End(name) => self.pop(name),
        }
    }

    /// Whether the piece may stand here; if so, the state after it is noted.
    fn take(&mut self, token: Token<'a>) -> bool
        ensures { MatchBool result
            (after_piece (state_of self.old) (piece_of token.entry) ≡ Some (state_of self.new))
            (after_piece (state_of self.old) (piece_of token.entry) ≡ None) }
    {
        if self.depth == 0 {
            self.take_outside(token)
        } else {
            self.take_inside(token)
        }
    }

    /// Skips the bytes at the start that may stand here and change nothing: text in an element, white space
    /// elsewhere. The rest is returned.
    fn after_run(&self, bytes: &'a [u8]) -> &'a [u8]
        ensures walk { walk_at (state_of self.now) result.now ≡ walk_at (state_of self.now) bytes.now }
        ensures elements { (depth : ℕ) (wanted : Option (List ℕ)) → elements_at depth wanted result.now ≡ elements_at depth wanted bytes.now }
        ensures shorter { length result.now ≤ length bytes.now }
    {
        if self.depth == 0 {
            skip(bytes, Class::White)
        } else {
            after_text(bytes)
        }
    }

    /// Whether the root was closed.
    fn is_ended(&self) -> bool
        ensures { result ≡ is_ended self.now.phase (state_of self.now).names }
    {
        match self.phase {
            Phase::Epilog => self.depth == 0,
            Phase::Opening | Phase::Prolog => false,
        }
    }
}

fn past(phase: Phase) -> Phase
    ensures { result ≡ past phase }
{
    match phase {
        Phase::Opening => Phase::Prolog,
        Phase::Prolog => Phase::Prolog,
        Phase::Epilog => Phase::Epilog,
    }
}

/// The bytes after the byte order mark, or all of them if there is none.
fn after_mark(bytes: &[u8]) -> &[u8]
    ensures rest { result.now ≡ after_mark bytes.now }
    ensures length { length result.now ≤ length bytes.now }
{
    match bytes {
        [239, 187, 191, rest @ ..] => rest,
        _ => bytes,
    }
}

/// The result at the end of the pieces.
fn place_at_end(bytes: &[u8], rest: &[u8], nesting: &Nesting) -> Option<usize>
    requires { length rest.now ≤ length bytes.now }
    ensures within { IfSome result (λ at. at ≤ length bytes.now) }
    ensures fault { result ≡ fault_place (length bytes.now) (state_of nesting.now, rest.now) }
{
    match rest {
        [] => if nesting.is_ended() {
            None
        } else {
            Some(bytes.len())
        },
        [_, ..] => Some(bytes.len() - rest.len()),
    }
}

/// The elements from which a document's table is read. If the pieces of the bytes don't nest to the end, the result
/// is the place up to which they do.
#[tactic(auto, unfolding(crate::specs::inside::Walk::fault_at))]
pub fn survey(bytes: &[u8]) -> Result<ElementPath<'_>, usize>
    requires short { length bytes.now ≤ 4194304 }
    ensures document { OnOk result (None ≡ fault_at bytes.now) }
    ensures path { IfOk result (λ path. IsPath bytes.now 0 [] (path_of path)) }
    ensures fault { IfErr result (λ at. Some at ≡ fault_at bytes.now) }
    ensures within { IfErr result (λ at. at ≤ length bytes.now) }
{
    let mut nesting = Nesting::new(bytes);
    let mut path = ElementPath::new();
    let mut rest = after_mark(bytes);
    while let Some((token, after)) = next_token(rest) {
        let passing = Passing {
            token,
            depth: nesting.depth,
            from: rest,
            after,
        };
        if !nesting.take(token) {
            return Err(bytes.len() - rest.len());
        }
        path.pass(&passing);
        rest = nesting.after_run(after);
    }
    match place_at_end(bytes, rest, &nesting) {
        Some(at) => Err(at),
        None => Ok(path),
    }
}

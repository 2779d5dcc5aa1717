//! Scripts that are made of drawn numbers: the same seed gives the same lines.
ghost use Rattle.std.specs.Prelude.{◌≡◌, ℕ, ◌+◌, ◌<◌, ◌≤◌, ◌↔◌, [], ◌∷◌, ◌++◌, take, length, map, decimal, codes};
ghost use Rattle.std.specs.Prelude.{Some, None, slice_get};
ghost use Rattle.clr_model.specs.declared.How.TheVariants.{Decide};
ghost use Rattle.clr_model.specs.Instructions.{new_object, set_slot, clear_local, collect_heap};
ghost use Rattle.clr_model.specs.LineGrammar.{spelling, thread_word, local_word};
ghost use Rattle.clr_script.specs.Made.{next_state, drawn, state_after, IsChoice, use_from, state_behind, made_types};
ghost use Rattle.clr_script.specs.Made.{made_lines, lines_left, MadeLinesLaw, MadeLengthLaw};

use clr_nums::put_dec;
use std::marker::Model;

// What every line draws, in this order.
#[derive(Clone, Copy)]
struct Choice {
    thread: u64,
    kind: u64,
    local: u64,
    other: u64,
}

// A linear congruence, whose states give the numbers that are drawn.
#[derive(Drop)]
struct Draws {
    state: u32,
}

impl Draws {
    // Draws a number below `count`.
    #[tactic(auto, unfolding(crate::specs::Made::next_state, crate::specs::Made::drawn))]
    fn draw(&mut self, count: u64) -> u64
        requires { 0 < count }
        ensures state { self.new.state ≡ next_state self.old.state }
        ensures drawn { result ≡ drawn count self.new.state }
        ensures below { result < count }
    {
        let product = self.state.wrapping_mul(1_664_525);
        self.state = product.wrapping_add(1_013_904_223);
        u64::from(self.state / 65_536) % count
    }

    // Draws what every line draws.
    fn choose(&mut self) -> Choice
        ensures drawn { IsChoice self.old.state result.thread result.kind result.local result.other }
        ensures state { self.new.state ≡ state_after 4 self.old.state }
        ensures thread { result.thread < 10 }
        ensures kind { result.kind < 8 }
        ensures local { result.local < 10 }
        ensures other { result.other < 10 }
    {
        let thread = 1 + self.draw(3);
        let kind = self.draw(8);
        let local = self.draw(8);
        let other = self.draw(8);
        Choice {
            thread,
            kind,
            local,
            other,
        }
    }

    // Draws a line and writes it. Gives its length.
    fn put_use(&mut self, into: &mut [u8; 64]) -> usize
        ensures line { take result into.new ≡ spelling (use_from self.old.state) }
        ensures state { self.new.state ≡ state_behind self.old.state }
        ensures some { 0 < result }
        ensures fits { result ≤ 64 }
    {
        let Choice {
            thread,
            kind,
            local,
            other,
        } = self.choose();
        match kind {
            0 | 1 => put_new(thread, local, b"Node", into),
            2 => put_new_array(thread, local, b"byte[]", self.draw(2_000), into),
            3 => put_new(thread, local, b"File", into),
            4 | 5 => put_set(thread, local, other, into),
            6 => put_null(thread, local, into),
            _ => put_collect(thread, self.draw(3), into),
        }
    }
}

/// The lines that are left of a made script.
#[derive(Drop)]
pub struct Made {
    // How many types are defined so far.
    types: usize,
    // How many lines are still to be drawn.
    uses: u32,
    draws: Draws,
}

impl Model for Made {
    ghost use Rattle.std.specs.Prelude.{List, ℕ, ◌≤◌};
    ghost use Rattle.clr_script.specs.Made.{lines_left};

    ghost Value = { List (List ℕ) };

    ghost view = { λ m. lines_left m.types m.uses m.draws.state };

    ghost invariant = { λ m. m.types ≤ 3 };
}

impl Made {
    /// The script of a seed, with `n` lines behind those that define its three types.
    pub fn new(seed: u32, n: u32) -> Made
        ensures { result ≡ made_lines seed n }
    {
        Made {
            types: 0,
            uses: n,
            draws: Draws { state: seed },
        }
    }

    /// Writes the next line at the front of `into`, without a line feed, and gives its length: 0
    /// exactly where no line is left.
    pub fn next_line(&mut self, into: &mut [u8; 64]) -> usize
        ensures ends { (result ≡ 0) ↔ (self.old ≡ []) }
        ensures ended { result ≡ 0 → self.new ≡ [] }
        ensures line { 0 < result → self.old ≡ take result into.new ∷ self.new }
        ensures fits { result ≤ 64 }
    {
        if self.types < 3 {
            let line = type_line(self.types);
            self.types += 1;
            return put(line, into, 0);
        }
        if self.uses == 0 {
            return 0;
        }
        self.uses -= 1;
        self.draws.put_use(into)
    }
}

// The line that defines a type of the script.
fn type_line(number: usize) -> &'static [u8]
    requires { number < 3 }
    ensures line { slice_get (map spelling made_types) number ≡ Some result.now }
    ensures some { 0 < length result.now }
    ensures short { length result.now ≤ 64 }
{
    match number {
        0 => b"type Node class rrn",
        1 => b"type byte[] bytes",
        _ => b"type File class rn final",
    }
}

// Writes the line that makes an object without a length, and gives its own length.
fn put_new(thread: u64, local: u64, name: &[u8], into: &mut [u8; 64]) -> usize
    requires thread { thread < 10 }
    requires local { local < 10 }
    requires short { length name.now ≤ 8 }
    ensures line { take result into.new ≡ spelling (new_object thread local name.now None) }
    ensures some { 0 < result }
    ensures short { result ≤ 20 }
{
    let end = put_thread(thread, into);
    let end = put_word(b"new", into, end);
    let end = put_local(local, into, end);
    put_word(name, into, end)
}

// Writes the line that makes an object of a length, and gives its own length.
fn put_new_array(thread: u64, local: u64, name: &[u8], len: u64, into: &mut [u8; 64]) -> usize
    requires thread { thread < 10 }
    requires local { local < 10 }
    requires short { length name.now ≤ 8 }
    ensures line { take result into.new ≡ spelling (new_object thread local name.now (Some len)) }
    ensures some { 0 < result }
    ensures short { result ≤ 41 }
{
    let end = put_new(thread, local, name, into);
    put_number(len, into, end)
}

// Writes the line that lets slot 0 of an object name another, and gives its length.
fn put_set(thread: u64, local: u64, other: u64, into: &mut [u8; 64]) -> usize
    requires thread { thread < 10 }
    requires local { local < 10 }
    requires other { other < 10 }
    ensures line { take result into.new ≡ spelling (set_slot thread local 0 other) }
    ensures some { 0 < result }
    ensures short { result ≤ 64 }
{
    let end = put_thread(thread, into);
    let end = put_word(b"set", into, end);
    let end = put_local(local, into, end);
    let end = put_number(0, into, end);
    put_local(other, into, end)
}

// Writes the line that clears a local, and gives its length.
fn put_null(thread: u64, local: u64, into: &mut [u8; 64]) -> usize
    requires thread { thread < 10 }
    requires local { local < 10 }
    ensures line { take result into.new ≡ spelling (clear_local thread local) }
    ensures some { 0 < result }
    ensures short { result ≤ 64 }
{
    let end = put_thread(thread, into);
    let end = put_word(b"null", into, end);
    put_local(local, into, end)
}

// Writes the line that collects a generation, and gives its length.
fn put_collect(thread: u64, generation: u64, into: &mut [u8; 64]) -> usize
    requires { thread < 10 }
    ensures line { take result into.new ≡ spelling (collect_heap thread generation Decide) }
    ensures some { 0 < result }
    ensures short { result ≤ 64 }
{
    let end = put_thread(thread, into);
    let end = put_word(b"collect", into, end);
    put_number(generation, into, end)
}

// Writes the word of a thread at the front.
fn put_thread(thread: u64, into: &mut [u8; 64]) -> usize
    requires { thread < 10 }
    ensures word { take result into.new ≡ thread_word thread }
    ensures end { result ≡ 2 }
{
    let end = put(b"t", into, 0);
    put_digits(thread, into, end)
}

// Puts a space and the word of a local behind what stands before `end`, and gives its own end.
fn put_local(local: u64, into: &mut [u8; 64], end: usize) -> usize
    requires local { local < 10 }
    requires room { end ≤ 40 }
    ensures word { take result into.new ≡ take end into.old ++ 32 ∷ local_word local }
    ensures end { result ≡ end + 3 }
{
    let end = put(b" l", into, end);
    put_digits(local, into, end)
}

// Puts a space and a word behind what stands before `end`, and gives its own end.
fn put_word(word: &[u8], into: &mut [u8; 64], end: usize) -> usize
    requires { end + length word.now < 64 }
    ensures word { take result into.new ≡ take end into.old ++ 32 ∷ word.now }
    ensures end { result ≡ end + 1 + length word.now }
{
    let end = put(b" ", into, end);
    put(word, into, end)
}

// Puts a space and a number behind what stands before `end`, and gives its own end.
fn put_number(number: u64, into: &mut [u8; 64], end: usize) -> usize
    requires { end ≤ 40 }
    ensures word { take result into.new ≡ take end into.old ++ 32 ∷ decimal number }
    ensures digit { number < 10 → result ≡ end + 2 }
    ensures end { result ≤ end + 21 }
{
    let end = put(b" ", into, end);
    put_digits(number, into, end)
}

// Puts a text behind what stands before `end`, and gives its own end.
fn put(text: &[u8], into: &mut [u8; 64], end: usize) -> usize
    requires { end + length text.now ≤ 64 }
    ensures text { take result into.new ≡ take end into.old ++ text.now }
    ensures end { result ≡ end + length text.now }
{
    let behind = end + text.len();
    into[end..behind].copy_from_slice(text);
    behind
}

// Puts a number in decimal digits behind what stands before `end`, and gives its own end.
fn put_digits(number: u64, into: &mut [u8; 64], end: usize) -> usize
    requires { end ≤ 44 }
    ensures text { take result into.new ≡ take end into.old ++ decimal number }
    ensures digit { number < 10 → result ≡ end + 1 }
    ensures end { result ≤ end + 20 }
{
    let mut digits = [0; 20];
    let count = put_dec(number, &mut digits);
    put(&digits[..count], into, end)
}

/// Each line of a made script is a line of the grammar.
pub fn made_lines_are_lines()
    ensures { MadeLinesLaw }
{}

/// A made script has three lines more than are drawn.
pub fn made_lines_are_counted()
    ensures { MadeLengthLaw }
{}

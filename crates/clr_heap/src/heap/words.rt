// The words and bytes of the heap, by address.
ghost use Rattle.std.specs.Prelude.{◌≡◌, ℕ, ◌+◌, ◌*◌, ◌/◌, ◌%◌, ◌<◌, ◌≤◌, ◌^◌, false, true, length, get_or, set};
ghost use Rattle.std.specs.Prelude.{vec_len};
ghost use Rattle.clr_mem.specs.Words.{byte_of, cleared, Holds, is_between, moved, with_byte};
ghost use Rattle.clr_heap.specs.Memories.{clears, contains, HasWord, InOne, IsApart, moves, memory_index, shapes};
ghost use Rattle.clr_heap.specs.Memories.{store_in, word_address, word_in};

use super::Heap;
use super::segment_map::SegmentMap;
use clr_mem::Mem;

impl Heap {
    ghost use Rattle.clr_heap.specs.View.{may_refer, names_from, SameShape, stored, word_of};

    /// The word at an address.
    #[inline(always)]
    pub fn word(&self, a: u64) -> u64
        requires { HasWord self.now.memories a }
        ensures value { result ≡ word_of self.now a }
        ensures room { a + 8 < 2 ^ 64 }
    {
        word_of_memories(&self.memories, self.near, &self.map, a)
    }

    /// The word at an address of segment `k`, faster than `word`.
    #[inline(always)]
    pub fn word_at(&self, k: usize, a: u64) -> u64
        requires word { HasWord self.now.memories a }
        requires segment { k ≡ memory_index self.now.memories a }
        ensures { result ≡ word_of self.now a }
    {
        word_in_memory(&self.memories, k, a)
    }

    /// Of the `n` words from `a` on in segment `k`, the number of the first one that names a place of the ephemeral
    /// segment from `low` on, and `n` where none does.
    #[inline(always)]
    pub fn first_naming(&self, k: usize, a: u64, n: u64, low: u64) -> u64
        requires words { (j : ℕ) → j < n → HasWord self.now.memories (a + 8 * j) }
        requires segment { (j : ℕ) → j < n → k ≡ memory_index self.now.memories (a + 8 * j) }
        ensures most { result ≤ n }
        ensures before { (j : ℕ) → j < result → names_from self.now low (a + 8 * j) ≡ false }
        ensures found { result < n → names_from self.now low (a + 8 * result) ≡ true }
    {
        let first = low.max(self.ephemeral_first);
        first_in_memory(&self.memories, k, a, n, first, self.ephemeral_end)
    }

    /// Of the `n` words from `a` on in segment `k`, the number of the first one that may be a reference, and `n` where
    /// none may.
    pub fn first_reference(&self, k: usize, a: u64, n: u64) -> u64
        requires words { (j : ℕ) → j < n → HasWord self.now.memories (a + 8 * j) }
        requires segment { (j : ℕ) → j < n → k ≡ memory_index self.now.memories (a + 8 * j) }
        ensures most { result ≤ n }
        ensures before { (j : ℕ) → j < result → may_refer (word_of self.now (a + 8 * j)) ≡ false }
        ensures found { result < n → may_refer (word_of self.now (a + 8 * result)) ≡ true }
    {
        first_in_memory(&self.memories, k, a, n, 1, u64::MAX)
    }

    /// Writes the word at an address.
    #[inline(always)]
    pub fn set_word(&mut self, a: u64, v: u64)
        requires { HasWord self.old.memories a }
        ensures value { self.new ≡ stored self.old a v }
        ensures room { a + 8 < 2 ^ 64 }
    {
        set_word_of_memories(&mut self.memories, self.near, &self.map, a, v);
    }

    /// Writes the word at an address of segment `k`, faster than `set_word`.
    #[inline(always)]
    pub fn set_word_at(&mut self, k: usize, a: u64, v: u64)
        requires word { HasWord self.old.memories a }
        requires segment { k ≡ memory_index self.old.memories a }
        ensures { self.new ≡ stored self.old a v }
    {
        set_word_in_memory(&mut self.memories, k, a, v);
    }

    /// The byte at an address.
    #[inline(always)]
    pub fn byte(&self, a: u64) -> u8
        requires { HasWord self.now.memories (word_address a) }
        ensures { result ≡ byte_of (word_of self.now (word_address a)) (a % 8) }
    {
        byte_of_memories(&self.memories, self.near, &self.map, a)
    }

    /// Writes the byte at an address.
    #[inline(always)]
    pub fn set_byte(&mut self, a: u64, v: u8)
        requires { HasWord self.old.memories (word_address a) }
        ensures { self.new
            ≡ stored self.old (word_address a) (with_byte (word_of self.old (word_address a)) (a % 8) v) }
    {
        set_byte_of_memories(&mut self.memories, self.near, &self.map, a, v);
    }

    /// Moves the words of `[from, from + len)` down to `[to, to + len)`. All other words stay.
    pub fn move_cells(&mut self, from: u64, to: u64, len: u64)
        requires from_in { InOne self.old.memories from len }
        requires to_in { InOne self.old.memories to len }
        requires down { to ≤ from }
        ensures shape { SameShape self.old self.new }
        ensures words { (b : ℕ) → b % 8 ≡ 0 → word_of self.new b ≡ moves from to len (word_of self.old) b }
    {
        move_in_memories(&mut self.memories, self.near, &self.map, from, to, len);
    }

    /// Clears the words of `[a, a + len)`. All other words stay.
    pub fn clear_cells(&mut self, a: u64, len: u64)
        requires { InOne self.old.memories a len }
        ensures shape { SameShape self.old self.new }
        ensures words { (b : ℕ) → b % 8 ≡ 0 → word_of self.new b ≡ clears a len (word_of self.old) b }
    {
        clear_in_memories(&mut self.memories, self.near, &self.map, a, len);
    }

    /// The number of the segment that an address lies in.
    #[inline(always)]
    pub fn segment_of(&self, a: u64) -> usize
        requires { HasWord self.now.memories a }
        ensures { result ≡ memory_index self.now.memories a }
    {
        find(&self.memories, self.near, &self.map, a)
    }

    /// The number of the segment that an address lies in, at once where that is `near`, a guess: most references of an
    /// object lead into its own segment.
    #[inline(always)]
    pub fn segment_near(&self, near: usize, a: u64) -> usize
        requires { HasWord self.now.memories a }
        ensures { result ≡ memory_index self.now.memories a }
    {
        find(&self.memories, near, &self.map, a)
    }
}

// Whether memory `k` is there, and an address lies in it.
#[inline(always)]
fn is_in(memories: &Vec<Mem>, k: usize, a: u64) -> bool
    ensures there { result ≡ true → k < vec_len memories.now }
    ensures holds { result ≡ true → (d : _)
        → (k < length memories.now.items) × (contains (get_or memories.now.items k d) a ≡ true) }
{
    match memories.get(k) {
        Some(memory) => memory.contains(a),
        None => false,
    }
}

// The number of the memory that an address lies in, at once where that is `near`, a guess.
#[inline(always)]
fn find(memories: &Vec<Mem>, near: usize, map: &SegmentMap, a: u64) -> usize
    requires word { HasWord memories.now.items a }
    requires apart { IsApart (shapes memories.now.items) }
    ensures index { result ≡ memory_index memories.now.items a }
    ensures word { (d : _) → Holds (get_or memories.now.items result d) a 8 }
    ensures aligned { (d : _) → (get_or memories.now.items result d).base % 8 ≡ 0 }
    ensures room { a + 8 < 2 ^ 64 }
{
    if !is_in(memories, near, a) {
        return look_up(memories, map.guess(a), a);
    }
    let memory = &memories[near];
    let _ = memory.len();
    near
}

// The number of the memory that an address lies in, at once where that is `guess`, and else by a search.
#[inline(never)]
fn look_up(memories: &Vec<Mem>, guess: usize, a: u64) -> usize
    requires word { HasWord memories.now.items a }
    requires apart { IsApart (shapes memories.now.items) }
    ensures index { result ≡ memory_index memories.now.items a }
    ensures word { (d : _) → Holds (get_or memories.now.items result d) a 8 }
    ensures aligned { (d : _) → (get_or memories.now.items result d).base % 8 ≡ 0 }
    ensures room { a + 8 < 2 ^ 64 }
{
    if !is_in(memories, guess, a) {
        return search(memories, a);
    }
    let memory = &memories[guess];
    let _ = memory.len();
    guess
}

// The number of the memory that an address lies in, by a search.
#[cold]
#[inline(never)]
fn search(memories: &Vec<Mem>, a: u64) -> usize
    requires word { HasWord memories.now.items a }
    requires apart { IsApart (shapes memories.now.items) }
    ensures index { result ≡ memory_index memories.now.items a }
    ensures word { (d : _) → Holds (get_or memories.now.items result d) a 8 }
    ensures aligned { (d : _) → (get_or memories.now.items result d).base % 8 ≡ 0 }
    ensures room { a + 8 < 2 ^ 64 }
{
    let mut low = 0;
    let mut high = memories.len();
    while low + 1 < high {
        let middle = low + (high - low) / 2;
        let memory = &memories[middle];
        if memory.base() <= a {
            low = middle;
        } else {
            high = middle;
        }
    }
    let memory = &memories[low];
    let _ = memory.len();
    low
}

#[inline(always)]
fn word_of_memories(memories: &Vec<Mem>, near: usize, map: &SegmentMap, a: u64) -> u64
    requires word { HasWord memories.now.items a }
    requires apart { IsApart (shapes memories.now.items) }
    ensures value { result ≡ word_in memories.now.items a }
    ensures room { a + 8 < 2 ^ 64 }
{
    let k = find(memories, near, map, a);
    let memory = &memories[k];
    memory.word(a)
}

#[inline(always)]
fn word_in_memory(memories: &Vec<Mem>, k: usize, a: u64) -> u64
    requires word { HasWord memories.now.items a }
    requires segment { k ≡ memory_index memories.now.items a }
    ensures { result ≡ word_in memories.now.items a }
{
    let memory = &memories[k];
    let _ = memory.len();
    memory.word(a)
}

// Of the `n` words from `a` on in memory `k`, the number of the first one that is one of the numbers from `low` to
// below `high`, and `n` where none is.
#[inline(always)]
fn first_in_memory(memories: &Vec<Mem>, k: usize, a: u64, n: u64, low: u64, high: u64) -> u64
    requires words { (j : ℕ) → j < n → HasWord memories.now.items (a + 8 * j) }
    requires segment { (j : ℕ) → j < n → k ≡ memory_index memories.now.items (a + 8 * j) }
    requires above { 0 < low }
    ensures most { result ≤ n }
    ensures before { (j : ℕ) → j < result → is_between low high (word_in memories.now.items (a + 8 * j)) ≡ false }
    ensures found { result < n → is_between low high (word_in memories.now.items (a + 8 * result)) ≡ true }
{
    if n == 0 {
        return 0;
    }
    let memory = &memories[k];
    let _ = memory.len();
    memory.first_between(a, n, low, high)
}

#[inline(always)]
fn set_word_in_memory(memories: &mut Vec<Mem>, k: usize, a: u64, v: u64)
    requires word { HasWord memories.old.items a }
    requires segment { k ≡ memory_index memories.old.items a }
    ensures items { memories.new.items ≡ store_in memories.old.items a v }
    ensures len { length memories.new.items ≡ length memories.old.items }
    ensures shapes { shapes memories.new.items ≡ shapes memories.old.items }
{
    let memory = &mut memories[k];
    let _ = memory.len();
    memory.set_word(a, v);
}

#[inline(always)]
fn set_word_of_memories(memories: &mut Vec<Mem>, near: usize, map: &SegmentMap, a: u64, v: u64)
    requires word { HasWord memories.old.items a }
    requires apart { IsApart (shapes memories.old.items) }
    ensures items { memories.new.items ≡ store_in memories.old.items a v }
    ensures len { length memories.new.items ≡ length memories.old.items }
    ensures shapes { shapes memories.new.items ≡ shapes memories.old.items }
    ensures room { a + 8 < 2 ^ 64 }
{
    let k = find(memories, near, map, a);
    let memory = &mut memories[k];
    memory.set_word(a, v);
}

#[inline(always)]
fn byte_of_memories(memories: &Vec<Mem>, near: usize, map: &SegmentMap, a: u64) -> u8
    requires word { HasWord memories.now.items (word_address a) }
    requires apart { IsApart (shapes memories.now.items) }
    ensures { result ≡ byte_of (word_in memories.now.items (word_address a)) (a % 8) }
{
    let k = find(memories, near, map, a / 8 * 8);
    let memory = &memories[k];
    memory.byte(a)
}

#[inline(always)]
fn set_byte_of_memories(memories: &mut Vec<Mem>, near: usize, map: &SegmentMap, a: u64, v: u8)
    requires word { HasWord memories.old.items (word_address a) }
    requires apart { IsApart (shapes memories.old.items) }
    ensures items { memories.new.items
        ≡ store_in memories.old.items (word_address a)
        (with_byte (word_in memories.old.items (word_address a)) (a % 8) v) }
    ensures shapes { shapes memories.new.items ≡ shapes memories.old.items }
{
    let k = find(memories, near, map, a / 8 * 8);
    let memory = &mut memories[k];
    memory.set_byte(a, v);
}

fn move_in_memories(
    memories: &mut Vec<Mem>,
    near: usize,
    map: &SegmentMap,
    from: u64,
    to: u64,
    len: u64,
)
    requires from_in { InOne memories.old.items from len }
    requires to_in { InOne memories.old.items to len }
    requires down { to ≤ from }
    requires apart { IsApart (shapes memories.old.items) }
    ensures words { (b : ℕ) → b % 8 ≡ 0
        → word_in memories.new.items b ≡ moves from to len (word_in memories.old.items) b }
    ensures shapes { shapes memories.new.items ≡ shapes memories.old.items }
    ensures len { length memories.new.items ≡ length memories.old.items }
{
    let low = find(memories, near, map, to);
    let high = find(memories, near, map, from);
    if low == high {
        slide_in(memories, low, from, to, len);
    } else {
        carry_between(memories, low, high, from, to, len);
    }
}

fn slide_in(memories: &mut Vec<Mem>, k: usize, from: u64, to: u64, len: u64)
    requires in_range { k < length memories.old.items }
    requires to_in { (d : _) → Holds (get_or memories.old.items k d) to len }
    requires from_in { (d : _) → Holds (get_or memories.old.items k d) from len }
    requires down { to ≤ from }
    ensures { (d : _) → memories.new.items
        ≡ set memories.old.items k
        (moved (get_or memories.old.items k d) (get_or memories.old.items k d) to from len) }
{
    let memory = &mut memories[k];
    memory.slide(from, to, len);
}

fn carry_between(memories: &mut Vec<Mem>, low: usize, high: usize, from: u64, to: u64, len: u64)
    requires order { low < high }
    requires in_range { high < length memories.old.items }
    requires to_in { (d : _) → Holds (get_or memories.old.items low d) to len }
    requires from_in { (d : _) → Holds (get_or memories.old.items high d) from len }
    ensures { (d : _) → memories.new.items
        ≡ set memories.old.items low
        (moved (get_or memories.old.items low d) (get_or memories.old.items high d) to from len) }
{
    let (front, back) = memories.split_at_mut(high);
    let target = &mut front[low];
    target.carry(to, &back[0], from, len);
}

fn clear_in_memories(memories: &mut Vec<Mem>, near: usize, map: &SegmentMap, a: u64, len: u64)
    requires held { InOne memories.old.items a len }
    requires apart { IsApart (shapes memories.old.items) }
    ensures words { (b : ℕ) → b % 8 ≡ 0 → word_in memories.new.items b ≡ clears a len (word_in memories.old.items) b }
    ensures shapes { shapes memories.new.items ≡ shapes memories.old.items }
    ensures len { length memories.new.items ≡ length memories.old.items }
{
    let k = find(memories, near, map, a);
    clear_in(memories, k, a, len);
}

fn clear_in(memories: &mut Vec<Mem>, k: usize, a: u64, len: u64)
    requires in_range { k < length memories.old.items }
    requires held { (d : _) → Holds (get_or memories.old.items k d) a len }
    ensures { (d : _) → memories.new.items ≡ set memories.old.items k (cleared (get_or memories.old.items k d) a len) }
{
    let memory = &mut memories[k];
    memory.zero(a, len);
}

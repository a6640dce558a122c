// The queue of 15 words. Every value of the struct is a queue, so no call requires anything:
// a place beyond the fifteenth goes on at the first, and a count above 15 stands for 15.
#![tactic(auto)]

ghost use Rattle.std.specs.Prelude.{◌≡◌};
ghost use Rattle.queue.specs.Queue.{empty_queue, place_of, held_in, oldest_of, rest_of, put_of, stored_answer, take_of};
ghost use Rattle.queue.specs.Enhanced.{starts_enhanced, past_enhanced};

use word::{Ascii, ScanCode, Word};

pub const CAPACITY: usize = 15;

// One place more than words, never used: 32 bytes are copied in whole pieces, 30 are not.
const PLACES: usize = 16;

// The words from the place `head` on, `count` of them, round the first 15 places: fixed memory, without a heap, as C has the three fields.
#[derive(Clone, Copy)]
pub struct Queue {
    pub count: usize,
    pub words: [Word; PLACES],
    pub head: usize,
}

// Why a word is not put.
#[derive(Clone, Copy)]
pub struct Full;

// The one empty queue.
#[tactic(auto, unfolding(crate::specs::Queue::empty_queue))]
pub fn empty() -> Queue
    ensures { result ≡ empty_queue }
{
    let blank = Word::new(ScanCode::from(0), Ascii::from(0));
    Queue {
        words: [blank; PLACES],
        head: 0,
        count: 0,
    }
}

// The place of the word that has `older` words before it. Both remainders come first, so that no sum overflows.
fn place(head: usize, older: usize) -> usize
    ensures { result ≡ place_of head older }
{
    (head % CAPACITY + older % CAPACITY) % CAPACITY
}

impl Queue {
    // How many words the queue holds.
    fn held(&self) -> usize
        ensures { result ≡ held_in self.now }
    {
        self.count.min(CAPACITY)
    }

    // The oldest word, left where it is.
    pub fn first(&self) -> Option<Word>
        ensures { result ≡ oldest_of self.now }
    {
        if self.count == 0 {
            return None;
        }
        Some(self.words[place(self.head, 0)])
    }

    // The word after the newest; a full queue stays as it is.
    pub fn put(&mut self, word: Word) -> Result<(), Full>
        ensures answer { result ≡ stored_answer (put_of self.old word).stored }
        ensures left { self.new ≡ (put_of self.old word).queue }
    {
        let count = self.held();
        if CAPACITY <= count {
            return Err(Full);
        }
        self.words[place(self.head, count)] = word;
        self.count = count + 1;
        Ok(())
    }

    // The queue loses its oldest word; an empty queue stays as it is.
    fn advance(&mut self)
        ensures { self.new ≡ rest_of self.old }
    {
        let count = self.held();
        if count == 0 {
            return;
        }
        self.head = place(self.head, 1);
        self.count = count - 1;
    }

    // The oldest word, removed.
    #[tactic(auto, unfolding(crate::specs::Queue::take_of))]
    pub fn take(&mut self) -> Option<Word>
        ensures answer { result ≡ (take_of self.old).oldest }
        ensures left { self.new ≡ (take_of self.old).queue }
    {
        let oldest = self.first();
        self.advance();
        oldest
    }

    // Whether the oldest word is enhanced.
    pub fn starts_enhanced(&self) -> bool
        ensures { result ≡ starts_enhanced self.now }
    {
        self.first().is_some_and(Word::is_enhanced)
    }

    // Enhanced words before the first other word are removed, for functions 00 and 01.
    pub fn pass_enhanced(&mut self)
        ensures { self.new ≡ past_enhanced self.old }
    {
        while self.starts_enhanced() {
            self.advance();
        }
    }
}

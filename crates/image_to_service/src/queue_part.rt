// Numbers to queues.
ghost use Rattle.std.specs.Prelude.{◌≡◌};
ghost use Rattle.image.specs.ImageQueue.{word_at_image, head_at, queue_at};

use image::{QueueImage, WordImage};
use queue::{CAPACITY, Queue};
use word::{Ascii, ScanCode, Word};

fn word_of(image: WordImage) -> Word
    ensures { result ≡ word_at_image image }
{
    Word::new(ScanCode::from(image.scan), Ascii::from(image.ascii))
}

fn head_of(head: usize) -> usize
    ensures { result ≡ head_at head }
{
    if head < CAPACITY { head } else { 0 }
}

pub fn queue_of(image: QueueImage) -> Queue
    ensures { result ≡ queue_at image }
{
    let images = image.words;
    Queue {
        words: images.map(word_of),
        head: head_of(image.head),
        count: image.count.min(CAPACITY),
    }
}

// Queues to numbers.
ghost use Rattle.std.specs.Prelude.{◌≡◌};
ghost use Rattle.image.specs.ImageQueue.{word_image, queue_image};

use image::{QueueImage, WordImage};
use queue::Queue;
use word::Word;

fn word_image(word: Word) -> WordImage
    ensures { result ≡ word_image word }
{
    WordImage {
        scan: word.high(),
        ascii: word.low(),
    }
}

pub fn image_of(queue: Queue) -> QueueImage
    ensures { result ≡ queue_image queue }
{
    QueueImage {
        head: queue.head,
        count: queue.count,
        words: queue.words.map(word_image),
    }
}

//! Random words for events, from a generator that the system seeds.

ghost use Rattle.std.specs.Prelude.{◌≡◌};
ghost use Rattle.server.specs.Drawn.{next_word};

use broker_types::Words;
use hub::WordSource;
use rand::RngExt;
use rand_chacha::ChaCha20Rng;
use rand_core::Rng;
use std::io;
use std::random::RandomSource;

/// Words that are drawn from a generator of random numbers.
#[derive(Drop)]
pub struct DrawnWords<R: Rng> {
    generator: R,
}

impl<R: Rng> DrawnWords<R> {
    ghost use Rattle.std.specs.Prelude.{◌≡◌};
    ghost use Rattle.server.specs.Drawn.{stream_of};

    /// Words from this generator.
    pub fn new(generator: R) -> DrawnWords<R>
        ensures { stream_of R.stream result ≡ R.stream generator }
    {
        DrawnWords { generator }
    }
}

impl<R: Rng> WordSource for DrawnWords<R> {
    ghost use Rattle.std.specs.Prelude.{◌≡◌};
    ghost use Rattle.server.specs.Drawn.{AreDrawn, drawn, left_after, stream_of};

    ghost may_give = { AreDrawn R.stream };

    /// The words that the next sixteen draws make, the high half of each word first.
    fn words(&mut self) -> Words
        ensures words { result.0 ≡ drawn 8 (stream_of R.stream self.old) }
        ensures left { stream_of R.stream self.new ≡ left_after 8 (stream_of R.stream self.old) }
    {
        let generator = &mut self.generator;
        let request = word(generator);
        let token = word(generator);
        let accessor = word(generator);
        let lease = word(generator);
        let credential = word(generator);
        let wrapping = word(generator);
        let wrapping_accessor = word(generator);
        let spare = word(generator);
        Words([
            request,
            token,
            accessor,
            lease,
            credential,
            wrapping,
            wrapping_accessor,
            spare,
        ])
    }
}

/// The word of the next two draws, the high half first.
fn word<R: Rng>(generator: &mut R) -> u128
    ensures { (result, R.stream generator.new) ≡ next_word (R.stream generator.old) }
{
    let high: u64 = generator.random();
    let low: u64 = generator.random();
    ((high as u128) << 64) | low as u128
}

/// Words from a generator that the system seeds. It fails if the system has no randomness to give.
pub fn seeded<R: RandomSource>(rt: &R) -> io::Result<DrawnWords<ChaCha20Rng>> {
    Ok(DrawnWords::new(rand::make_rng(rt)?))
}

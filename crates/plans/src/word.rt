// Value words: four values in one number. Everything that knows how wide they are stands here.
ghost use Rattle.std.specs.Prelude.{◌≡◌, ◌+◌, ◌*◌, ◌^◌, ◌<◌};
ghost use Rattle.plans.specs.Words.{base, values_of, word_of};

// The value of a parameter.
pub type Value = u8;

// A value word.
pub type Word = u32;

// The four values of a word.
pub(crate) fn values_of(word: Word) -> [Value; 4]
    ensures { result ≡ values_of word }
{
    word.to_be_bytes()
}

// Four values with one more behind them, of which at most the last three are used: bytes stay bytes, so that a word that is taken
// apart again costs nothing.
pub(crate) fn push(values: [Value; 4], value: Value) -> [Value; 4]
    requires { word_of values < 2 ^ 24 }
    ensures value { word_of result ≡ word_of values * base + value }
    ensures bound { word_of result < (word_of values + 1) * base }
{
    let [_, second, third, fourth] = values;
    [second, third, fourth, value]
}

// The word that holds four values, the first on top.
pub(crate) fn word_of(values: [Value; 4]) -> Word
    ensures { result ≡ word_of values }
{
    Word::from_be_bytes(values)
}

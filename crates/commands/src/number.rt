ghost use Rattle.std.specs.Prelude.{◌≡◌, IfOk};
ghost use Rattle.std.specs.Option.{option_map};
ghost use Rattle.commands.specs.Decimal.{decimal_of, numbers_of, ReadAs};

use sheet_text::text::figures;
use std::alloc::{AllocError, Global};

// The number that a word of figures stands for, where it has 64 bits.
pub fn decimal(word: &[u8]) -> Option<u64>
    ensures { result ≡ decimal_of word.now }
{
    if word.is_empty() {
        return None;
    }
    figures(u64::MAX, word)
}

// The number that a word of figures stands for, where a type holds it.
pub fn decimal_in<T: TryFrom<u64>>(word: &[u8]) -> Option<T>
where
    T::Error: Drop,
    ensures { ReadAs T.try_from_gives (decimal_of word.now) result }
{
    T::try_from(decimal(word)?).ok()
}

// The numbers that the words of a text stand for, which a byte parts; none where a word is no number.
pub fn numbers(heap: Global, text: &[u8], separator: u8) -> Result<Option<Vec<u64>>, AllocError>
    ensures { IfOk result (λ found. option_map (λ v. v.items) found ≡ numbers_of separator text.now) }
{
    let mut numbers = Vec::new(heap);
    for word in text.split(|b| *b == separator) {
        let Some(number) = decimal(word) else {
            return Ok(None);
        };
        numbers.push(number)?;
    }
    Ok(Some(numbers))
}

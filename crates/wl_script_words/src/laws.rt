//! Laws over the definitions of words and numbers.

ghost use Rattle.wl_script_words.specs.WordReading.{ReadsNumbersBack, HasOneDecimal};
ghost use Rattle.wl_script_words.specs.Words.{ReadsBack, HasOneSpelling};

/// States the laws of words: reading the word of a text returns the text, and each text has one
/// word.
pub fn law_words()
    ensures reads_back { ReadsBack }
    ensures one_spelling { HasOneSpelling }
{}

/// States the laws of numbers: reading a decimal returns its number, and each number below the cap
/// has one spelling.
pub fn law_numbers()
    ensures reads_back { ReadsNumbersBack }
    ensures one_decimal { HasOneDecimal }
{}

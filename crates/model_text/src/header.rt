// The first line of a model text.
ghost use Rattle.std.specs.Prelude.{◌≡◌};
ghost use Rattle.model_text.specs.ModelLines.{is_model_header};
ghost use Rattle.des_base.specs.CountedLines.{texts_of};

use crate::keyword::is_word;
use des_base::Tokens;

// Whether the tokens are `des 1`.
pub(crate) fn is_model_header(mut tokens: Tokens) -> bool
    ensures { result ≡ is_model_header (texts_of tokens.entry) }
{
    let Some(word) = tokens.next_token() else {
        return false;
    };
    let Some(version) = tokens.next_token() else {
        return false;
    };
    tokens.next_token().is_none() && is_word(word.text, "des") && is_word(version.text, "1")
}

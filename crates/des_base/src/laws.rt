// The laws of numbers and tokens in texts.
ghost use Rattle.des_base.specs.Laws.{NumbersAreDecimal, TokensArePieces};

/// A law: a text spells a number exactly if it is what is printed of that number.
pub fn numbers_are_decimal()
    ensures { NumbersAreDecimal }
{}

/// A law: the tokens of a line are its pieces between blanks that have a byte.
pub fn tokens_are_pieces()
    ensures { TokensArePieces }
{}

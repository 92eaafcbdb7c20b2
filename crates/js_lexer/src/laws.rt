//! What holds of every text. These calls do nothing: each says a law of the tokens that `lex`
//! answers.

ghost use Rattle.js_lexer.specs.Laws as law;

/// Every text has tokens or a first fault.
pub fn every_text_is_lexed()
    ensures { law.EveryTextIsLexed }
{}

/// No text has both.
pub fn no_text_has_both()
    ensures { law.NoTextHasBoth }
{}

/// A text is cut into pieces in one way at most.
pub fn one_cut()
    ensures { law.OneCut }
{}

/// The tokens of a text are the only ones.
pub fn one_list_of_tokens()
    ensures { law.OneListOfTokens }
{}

/// The first fault of a text is the only one.
pub fn one_fault()
    ensures { law.OneFault }
{}

/// At each place, what reading from the first character on finds to be a piece is the longest that
/// is allowed there, and the other way round.
pub fn reading_finds_the_next_piece()
    ensures { law.ReadingFindsTheNextPiece }
{}

/// Where there is more text and no such piece, a fault stands, and only there.
pub fn faults_stand_where_no_piece_does()
    ensures { law.FaultsStandWhereNoPieceDoes }
{}

//! Laws over the definitions of the printed text: each call does nothing, and says a law.

ghost use Rattle.cluster_files.specs.ReadsBack as back;

/// The tokens that the tree of a script is written with are a script of this tree.
pub fn printed_tokens_read_back()
    ensures { back.PrintedTokensReadBack }
{}

/// Names, numbers and strings among the tokens of a text are such as may be written.
pub fn tokens_of_texts_are_read()
    ensures { back.TokensOfTextsAreRead }
{}

/// Each tree of tokens that may be written has its printed text.
pub fn printed_tree_reads_back()
    ensures { back.PrintedTreeReadsBack }
{}

/// Each tree that some text has, its printed text has.
pub fn printed_text_reads_back()
    ensures { back.PrintedTextReadsBack }
{}

/// The tokens of the printed text are those that the tree is written with.
pub fn printed_text_is_its_tokens()
    ensures { back.PrintedTextIsItsTokens }
{}

/// No lexical fault is told of the printed text.
pub fn printed_text_is_lexed()
    ensures { back.PrintedTextIsLexed }
{}

/// At most two brackets are open at once in the printed text for each node on the way down.
pub fn printed_text_has_few_brackets()
    ensures { back.PrintedTextHasFewBrackets }
{}

/// Where a text was accepted within limits, the printed text of its tree is, if it has few enough
/// open brackets.
pub fn printed_text_is_accepted()
    ensures { back.PrintedTextIsAccepted }
{}

/// So what `parse` answers of its tokens is the tree, but for want of memory.
pub fn printed_text_is_parsed()
    ensures { back.PrintedTextIsParsed }
{}

/// The printed text of the tree of a printed text is that text.
pub fn printed_twice_is_printed_once()
    ensures { back.PrintedTwiceIsPrintedOnce }
{}

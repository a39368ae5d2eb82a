//! What is proved of basis decks, and of decks that are written out: the deck of a problem converts to that problem, and its cards come
//! back from its text as one deck.
//! The functions here do nothing. Each promises laws, so that the check proves them.
#![tactic(auto)]

ghost use Rattle.basis_deck_laws.specs.Laws.{BasisDeckLaws, DependencyLaws};
ghost use Rattle.basis_deck_laws.specs.WrittenDecks.{ConvertsBack, ReadsBack, IsOneDeck};

pub fn written_deck_laws()
    ensures converts_back { ConvertsBack }
    ensures reads_back { ReadsBack }
    ensures one_deck { IsOneDeck }
{}

pub fn basis_deck_laws()
    ensures { BasisDeckLaws }
{}

pub fn dependency_laws()
    ensures { DependencyLaws }
{}

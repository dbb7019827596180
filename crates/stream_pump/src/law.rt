//! Each law is a function that does nothing and promises it.
ghost use Rattle.stream_pump.specs.PlainBooks.{BooksLoseOnlyWhatIsNamed, BooksWithoutLossesArePlain, ChosenBooksAreBooks, ResynchronisingBooksDrain};
ghost use Rattle.stream_pump.specs.WholeRuns.{RestingNetsCanRun, WholeRunsHaveBooks, WholeRunsRest};

/// The run that one thread takes is a whole run, and its book that run's.
pub fn chosen_books_are_books()
    ensures { ChosenBooksAreBooks }
{}

/// Where nothing was lost in a run the plan tells its book, but for the journal and the peaks.
pub fn books_without_losses_are_plain()
    ensures { BooksWithoutLossesArePlain }
{}

/// Where a plan names no packet to lose its run loses none; where each stream resynchronises by itself its book tells
/// that all are drained.
pub fn books_tell_of_drained_streams()
    ensures unnamed { BooksLoseOnlyWhatIsNamed }
    ensures resynchronising { ResynchronisingBooksDrain }
{}

/// A net at rest that can begin a plan stands for networks that can run it. What a net tells at the end of a whole run is
/// that run's book, and then the net is at rest again.
pub fn whole_runs_have_books_and_rest()
    ensures can { RestingNetsCanRun }
    ensures books { WholeRunsHaveBooks }
    ensures rest { WholeRunsRest }
{}

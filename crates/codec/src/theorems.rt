// What the format promises of every book and every act, beside what each call says of its own answer.
ghost use Rattle.codec.specs.Kinds.{KindsDiffer};
ghost use Rattle.codec.specs.RoundTrips.{ActsReadBack, ActsWriteBack, BooksReadBack, BooksWriteBack, OutputsReadBack, PlaysReplay, ReplaysPlay};
ghost use Rattle.codec.specs.Told.{FaultsTold, StopsTold};

// Reading and writing agree: what is written is read back, what was read is what would be written, exactly the inputs that play through are answered, and any other is refused by its first fault.
pub fn formats_agree()
    ensures books { (BooksReadBack) × (BooksWriteBack) }
    ensures kinds { KindsDiffer }
    ensures acts { (ActsReadBack) × (ActsWriteBack) }
    ensures replays { (PlaysReplay) × (ReplaysPlay) }
    ensures outputs { OutputsReadBack }
    ensures faults { (FaultsTold) × (StopsTold) }
{}

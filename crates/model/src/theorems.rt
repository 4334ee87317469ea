// The theorems. Each is the contract of a function that does nothing; its statements stand in specs/.
ghost use Rattle.std.specs.Prelude.{◌+◌, ◌-◌, ◌*◌};
ghost use Rattle.model.specs.Spans.{take_path, TakePath, bridge, Bridge, connected, Connected, initial_span, InitialSpan, terminal_span, TerminalSpan};
ghost use Rattle.model.specs.Sharing.{can_get, CanGet, can_share, CanShare};
ghost use Rattle.model.specs.Certificates.{is_right};
ghost use Rattle.model.specs.Restricted.{restricted, adds};
ghost use Rattle.model.specs.Changes.{changed};
ghost use Rattle.model.specs.Creations.{NewlyShared};
ghost use Rattle.model.specs.Plans.{Exchange};
ghost use Rattle.model.specs.Readings.{ClosureComplete, ClosureIs, ClosedIs, Says, SaysOfRights, BothWays, PassiveObject};
ghost use Rattle.model.specs.NothingNew.{StayWellFormed, NothingNew, NothingEverNew, RulesLeave, RemovingTakesAway, RetiringTakesAway, PathsUnchanged};
ghost use Rattle.model.specs.Certified.{ShowsNever, NoIsCertified, CertificateDecides, CertificateLeast, GottenFromOut, InnerAreSubjects};
ghost use Rattle.model.specs.Promise.{Promise, PromiseFor, RestrictedRows};
ghost use Rattle.model.specs.Exactly.{ExactIsWitness};
ghost use Rattle.model.specs.Near.{by_taking_alone, objects_acting, given_by_holder, right_by_takes, Refuted, Fooled};
ghost use Rattle.model.specs.Examples.{WorkedExamples, ObjectsAreGranted};

// A closure over n vertices is complete after fewer than n rounds, for any relation; and a closed set that holds x, and only what rows of steps
// from x lead to, is the closure of x.
pub fn closures_complete()
    ensures complete { ClosureComplete (λ n. n - 1) }
    ensures value { ClosureIs }
    ensures closed { ClosedIs }
{}

// In a well-formed state each test of spans, bridges and sharing says what its relation without bounds says.
pub fn tests_agree()
    ensures paths { Says take_path TakePath }
    ensures bridges { Says bridge Bridge }
    ensures rows { Says connected Connected }
    ensures initial { Says initial_span InitialSpan }
    ensures terminal { Says terminal_span TerminalSpan }
    ensures getting { SaysOfRights can_get CanGet }
    ensures sharing { SaysOfRights can_share CanShare }
{}

// Connected goes both ways. An object to which nobody has grant comes to have only what it has.
pub fn connected_both_ways()
    ensures same { BothWays connected }
    ensures passive { PassiveObject can_share }
{}

// Rules keep a state well-formed. No rule makes anything newly shareable or gettable among vertices that were there. Takes, grants and creations
// leave exactly what was; removals and subjects' becoming objects only take away; and take paths change only from where one led to the vertex whose
// rights a rule changes.
pub fn rules_make_nothing_new()
    ensures kept { StayWellFormed }
    ensures shared { NothingNew can_share }
    ensures got { NothingNew can_get }
    ensures shared_after { NothingEverNew can_share }
    ensures got_after { NothingEverNew can_get }
    ensures adding_shared { RulesLeave adds can_share }
    ensures adding_got { RulesLeave adds can_get }
    ensures removing_shared { RemovingTakesAway can_share }
    ensures removing_got { RemovingTakesAway can_get }
    ensures retiring_shared { RetiringTakesAway can_share }
    ensures retiring_got { RetiringTakesAway can_get }
    ensures paths { PathsUnchanged changed }
{}

// Just after a creation, x can come to have r to the new vertex exactly if the creator has it and some subject that is connected with the creator
// spans initially to x.
pub fn new_vertex_shared()
    ensures { NewlyShared can_share }
{}

// Two subjects with a bridge can exchange whatever either has, by at most 2n + 4 rules of theirs alone and one creation.
pub fn bridges_exchange()
    ensures { Exchange (λ n. 2 * n + 4) 1 }
{}

// A right certificate shows that the right never comes about, whoever wrote it. The certificate of a no is right, decides of one holder and one
// target, and is the least that is closed; what x can get is what its O has, and J is what are subjects of O, and of I.
pub fn certificates_decide()
    ensures shows { ShowsNever is_right }
    ensures certified { NoIsCertified is_right }
    ensures decides { CertificateDecides can_share }
    ensures least { CertificateLeast }
    ensures got { GottenFromOut }
    ensures inner { InnerAreSubjects }
{}

// The promise: what can be shared has a witness, and what cannot never comes about.
pub fn promise()
    ensures { Promise can_share }
{}

// The exact witness, of which every choice is laid down, is a witness wherever there is one.
pub fn exact_witness()
    ensures { ExactIsWitness }
{}

// Rules of some subjects alone, and of what they create, bring about exactly what can be shared once all others are objects.
pub fn promise_for_some()
    ensures decides { PromiseFor restricted }
    ensures rows { RestrictedRows }
{}

// The worked examples hold; an object comes to have only what is granted to it; and what comes near is wrong.
pub fn examples_hold()
    ensures table { WorkedExamples }
    ensures granted { ObjectsAreGranted }
    ensures taking_alone { Refuted by_taking_alone }
    ensures objects_acting { Refuted objects_acting }
    ensures given_by_holder { Refuted given_by_holder }
    ensures takes_alone { Fooled right_by_takes }
{}

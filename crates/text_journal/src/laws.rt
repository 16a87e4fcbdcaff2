// Laws of the text of printed lines, read as a journal.
ghost use Rattle.text_journal.specs.Laws.{AcceptedHaveNames, ReadsBack};

/// What a run prints can be handed in as the journal of a replay: it names the boundary of each of its change lines.
pub fn a_run_is_its_own_journal()
    ensures reads_back { ReadsBack }
{}

/// Classes and rules that are accepted have the names that this law asks for.
pub fn accepted_have_names()
    ensures names { AcceptedHaveNames }
{}

// Laws on what words spell.
ghost use Rattle.clr_heap.specs.Laws.{OneListLaw};

/// The words from one place to another spell one list of parts at most.
pub fn words_spell_one_list()
    ensures { OneListLaw }
{}

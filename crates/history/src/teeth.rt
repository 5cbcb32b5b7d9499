ghost use Rattle.history.specs.Faults.{Lawful, Unlawful, both_made_two, half_drained, lost_update, torn_read, unchecked_loads, leader_beaten, leader_invalid, leader_stolen_from, given_up_word};

// What the law forbids: each record that is named here has one fault and breaks the law, whatever the set-up is.
// The last one has none, and keeps it.
pub fn law_has_teeth()
    ensures half_drained { Unlawful half_drained }
    ensures lost_update { Unlawful lost_update }
    ensures torn_read { Unlawful torn_read }
    ensures unchecked_loads { Unlawful unchecked_loads }
    ensures leader_beaten { Unlawful leader_beaten }
    ensures leader_invalid { Unlawful leader_invalid }
    ensures leader_stolen_from { Unlawful leader_stolen_from }
    ensures given_up_word { Unlawful given_up_word }
    ensures no_fault { Lawful both_made_two }
{}

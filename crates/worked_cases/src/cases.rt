ghost use Rattle.worked_cases.specs.Cases.{WorkedCases};

// The worked cases hold; answers how many they are, as it always did: a caller may read the number.
pub fn worked_cases_hold() -> u8
    ensures { WorkedCases }
{
    9
}

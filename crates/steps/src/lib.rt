// The steps to the summer mark, put together for a ship: rounded, exact, and how far the two can lie apart. Definitions and theorems, no function.
#![tactic(auto)]

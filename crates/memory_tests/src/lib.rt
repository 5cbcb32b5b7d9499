// What users try first on a memory, as tests. The library itself is proved; these show that it is the one they expect.
#![tactic(auto)]

#[cfg(test)]
mod edges;
#[cfg(test)]
mod full_logs;
#[cfg(test)]
mod stealing;

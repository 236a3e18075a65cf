//! A posted result.
#![tactic(auto)]

use spa::COMPONENTS;

/// A result that is posted: who offers what, what each student is assigned, and prices of projects and supervisors.
#[derive(Drop)]
pub struct Posted {
    /// Each supervisor's quota.
    pub supervisors: Vec<u32>,
    /// Each project's supervisor, by position, and its quota.
    pub projects: Vec<(usize, u32)>,
    /// Each student's project, by position, or none.
    pub students: Vec<Option<usize>>,
    /// Each project's price.
    pub project_prices: Vec<[i64; COMPONENTS]>,
    /// Each supervisor's price.
    pub supervisor_prices: Vec<[i64; COMPONENTS]>,
}

//! The laws of a run.
ghost use Rattle.ids_server.specs.Running.{StepsKeepRunning, FailuresEnd, RunsEnd, RunsStart};

use ids_engine::journal_laws::journals_go_on;
use ids_model::laws;

/// A statement that stands next in the script keeps its session served.
pub fn steps_keep_running()
    ensures { StepsKeepRunning }
{
    laws::begins_keep_served();
    laws::second_begins_keep_served();
    laws::lone_rollbacks_keep_served();
    laws::rollbacks_keep_served();
    laws::undone_are_back();
    laws::fitting_are_past();
    laws::effects_fit();
    laws::lone_commits_keep_served();
    laws::statements_keep_served();
    laws::refusals_keep_served();
    laws::commits_keep_served();
    laws::singles_keep_served();
    laws::single_refusals_keep_served();
    laws::unanswered_commits_match();
    laws::unanswered_singles_match();
    journals_go_on();
}

/// Where a statement fails, what was done accords with the script.
pub fn failures_end()
    ensures { FailuresEnd }
{
    laws::begins_keep_served();
    laws::second_begins_keep_served();
    laws::lone_rollbacks_keep_served();
    laws::rollbacks_keep_served();
    laws::undone_are_back();
    laws::fitting_are_past();
    laws::effects_fit();
    laws::lone_commits_keep_served();
    laws::statements_keep_served();
    laws::refusals_keep_served();
    laws::commits_keep_served();
    laws::singles_keep_served();
    laws::single_refusals_keep_served();
    laws::unanswered_commits_match();
    laws::unanswered_singles_match();
    journals_go_on();
}

/// So does what a run leaves.
pub fn runs_end()
    ensures { RunsEnd }
{}

/// A run begins with the tables that were found.
pub fn runs_start()
    ensures { RunsStart }
{
    laws::served_at_start();
}

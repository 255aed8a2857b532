ghost use Rattle.std.specs.Prelude.{◌≡◌, ◌++◌, ◌∷◌, [], ℕ, List, Some, None, true, false};
ghost use Rattle.std.specs.Prelude.{if◌then◌else◌};
ghost use Rattle.std.specs.List.{flat_map};
ghost use Rattle.replay_engine.specs.Jobs.{State, Message, opened, own_message, with_messages};
ghost use Rattle.replay_engine.specs.Messages.{begins_page, consent_message, init_message};
ghost use Rattle.replay_engine.specs.Run.{lines_text, run_from, step_texts};
ghost use Rattle.trace_forms.specs.Steps.{Step};

/// A law, with nothing to call: a run that has not ended goes on from where its first steps end,
/// and one that ended at the limit of jobs takes no further step.
pub fn runs_go_on()
    ensures goes_on { (state : State) (first rest : List Step) → (run_from state first).limit ≡ None
        → let before = run_from state first in
        run_from state (first ++ rest) ≡ record (run_from before.state rest) {
          lines = before.lines ++ (run_from before.state rest).lines;
        } }
    ensures ended { (state : State) (first rest : List Step) (number : ℕ)
        → (run_from state first).limit ≡ Some number
        → run_from state (first ++ rest) ≡ run_from state first }
{}

/// A law, with nothing to call: the text of a run that has not ended is the text of its steps, in
/// their order.
pub fn a_run_is_its_steps()
    ensures { (state : State) (steps : List Step) → (run_from state steps).limit ≡ None
        → lines_text (run_from state steps).lines
        ≡ flat_map (λ text. text) (step_texts state steps) }
{}

/// A law, with nothing to call: the two messages that initialise a page stand before the first
/// message that begins it, and before no later one.
pub fn a_page_is_initialised_once()
    ensures before { (state : State) (first : Message) (messages : List Message)
        → state.begun ≡ false → state.waiting.messages ≡ first ∷ messages
        → opened state ≡ (if begins_page first.value
        then record (with_messages state
        (own_message consent_message ∷ own_message init_message ∷ first ∷ messages))
        { begun = true }
        else state) }
    ensures once { (state : State) → state.begun ≡ true → opened state ≡ state }
    ensures stays { (state : State) (steps : List Step) → state.begun ≡ true
        → (run_from state steps).state.begun ≡ true }
{}

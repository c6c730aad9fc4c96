ghost use Rattle.waiting_core.specs.Lobby.{StepsKeep, NobodySleepsOn};

/// Each atomic step keeps what the lobby keeps.
pub fn lobby_steps_keep()
    ensures { StepsKeep }
{}

/// Where somebody sleeps in the lobby, a worker has the desk, looks for it, or calls.
pub fn nobody_sleeps_on()
    ensures { NobodySleepsOn }
{}

// The blocks of a pair in the source's log.
ghost use Rattle.pair_laws.specs.Life.{PairLives, PairSaysEnough};

/// Of each block of a main fork the source's log is a life, from a base on whose pages are empty, and
/// the source's state of it is one of that life.
pub fn pair_lives()
    ensures { PairLives }
{}

/// No record of the source's log lacks some of its layout.
pub fn pair_says_enough()
    ensures { PairSaysEnough }
{}

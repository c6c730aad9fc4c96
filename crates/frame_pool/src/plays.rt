//! The kinds of atomic step on a pool's table, and what each tells.
ghost use Rattle.frame_pool.specs.Steps.{looked, took, released, marked, claimed};
ghost use Rattle.frame_pool.specs.Steps.{published, abandoned, wrote, read_word};
ghost use Rattle.frame_pool.specs.Views.{blank, spent};

use crate::content::Content;
use crate::view::Duty;
use atomic_table::{Join, Play, Split};
use std::marker::PhantomData;

/// A load of a control word.
pub(crate) struct Look;

impl Play<(), Duty> for Look {
    ghost then = { looked };
}

/// `pin`: a compare and exchange of a control word.
pub(crate) struct Takes;

impl Play<(), Duty> for Takes {
    ghost then = { took };
}

/// `unpin`: a fetch and subtract of a control word.
pub(crate) struct Releases;

impl Play<(), Duty> for Releases {
    ghost then = { released };
}

/// `mark`: a compare and exchange of a control word.
pub(crate) struct Marks;

impl Play<(), Duty> for Marks {
    ghost then = { marked };
}

/// `claim`: a compare and exchange of a control word.
pub(crate) struct Claims;

impl Play<(), Duty> for Claims {
    ghost then = { claimed };
}

/// `publish`: a store of a control word.
pub(crate) struct Publishes;

impl Play<(), Duty> for Publishes {
    ghost then = { published };
}

/// `abandon`: a store of a control word.
pub(crate) struct Abandons;

impl Play<(), Duty> for Abandons {
    ghost then = { abandoned };
}

/// `put`: a store of a data word.
pub(crate) struct Puts;

impl Play<(), Duty> for Puts {
    ghost then = { wrote };
}

/// `word`: a load of a data word.
pub(crate) struct Reads<C> {
    content: PhantomData<C>,
}

impl<C: Content> Play<(), Duty> for Reads<C> {
    ghost then = { read_word C.pieces };
}

/// A berth more, with no pin and no fill.
pub(crate) struct Cut;

impl Split<Duty> for Cut {
    ghost left = { λ v. v };

    ghost right = { λ v. blank v.shape };
}

/// A berth less.
pub(crate) struct Glue;

impl Join<Duty> for Glue {
    ghost both = { λ v _. v };

    ghost spent = { spent };
}

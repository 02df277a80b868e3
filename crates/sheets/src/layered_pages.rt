// What layers come to on the pages of a list.
ghost use Rattle.sheets.specs.JoinedPages.{JointOnPages};
ghost use Rattle.sheets.specs.KeptPages.{KeepOnPages};
ghost use Rattle.sheets.specs.PaddedPages.{PaddingChangesNoRank, PaddingOnPages};

/// What padding takes of each page, and that it changes no rank: it computes nothing, its contract is the law.
pub fn padding_on_pages_holds()
    ensures heights { PaddingOnPages }
    ensures ranks { PaddingChangesNoRank }
{}

/// What a keep makes of each page end: it computes nothing, its contract is the law.
pub fn keep_on_pages_holds()
    ensures { KeepOnPages }
{}

/// What a joint makes of each page of a pair: it computes nothing, its contract is the law.
pub fn joint_on_pages_holds()
    ensures { JointOnPages }
{}

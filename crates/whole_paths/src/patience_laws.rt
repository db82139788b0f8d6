//! How soon both files are delivered over one path of a mild connection, as clauses of functions that do nothing.
ghost use Rattle.path_core.specs.Octets.{octets};
ghost use Rattle.path_core.specs.Values.{values};
ghost use Rattle.whole_paths.specs.FewTexts.{FewStepsAreBrief, FewTextsFinish, FewTextsGoOn};
ghost use Rattle.whole_paths.specs.PatientPaths.{FewLossesFinishPatiently, PatientPathEnds, PatientPathsEnd};
ghost use Rattle.whole_paths.specs.PatientTexts.{FewLossesFinishByText, PatientTextEnds, PatientTextsEnd};

/// A law: over one path both files are delivered after 10,800 rounds, 23 for each full segment of either file, and 3,150 for each segment that is
/// harmed, unless an end dies; however much is lost, late or repeated.
///
/// It is said of mild scripts, of files of 16 MiB at most, and of fewer than 2^64 - 1 turns. So it is from the round's end at which the path is whole
/// (`ends_octets`, `ends_values`), and from the beginning (`octets`, `values`). A segment is harmed where it is lost, or comes later than 400 ticks;
/// with four such segments at most, and no line by which the path dies or its address is taken back, no end dies (`few_octets`, `few_values`).
/// Each copy with octets that comes to B's end before that may send a DSS, as none does unless A's first segment with both keys is harmed or
/// overtaken, is dropped (RFC 8684, section 3.1), and counts as a harm; where A's timer ran out since, one of them at most. No more count than A's
/// end has records as B's may send a DSS first, nor, where A's file fits the first window, than that has full segments. A window that is shut is told
/// again as its reader has read enough (RFC 9293, section 3.8.6); where that is lost the end's timer asks for it.
pub fn patient_paths_deliver()
    ensures ends_octets { PatientPathsEnd octets }
    ensures ends_values { PatientPathsEnd values }
    ensures few_octets { FewLossesFinishPatiently octets }
    ensures few_values { FewLossesFinishPatiently values }
    ensures octets { PatientPathEnds octets }
    ensures values { PatientPathEnds values }
{}

/// A law: over one path both files are delivered after as many rounds as the text of the script and its files say, whatever comes early: 10,800, 23
/// for each full segment of either file, and 3,150 for each segment that is harmed and for each full segment of A's file; unless an end dies.
///
/// It is said of the scripts that `patient_paths_deliver` is said of, where A's file fits the first window: with three octets more into what B
/// buffers, and with one more into the 65,535 octets of a SYN's window (RFC 9293, section 3.8.6). As path 0 opens A's end has no more records then
/// than the file has full segments: no more count of the copies that came to B's end before that could send a DSS. So it is from the round's end at
/// which the path is whole (`ends_octets`, `ends_values`), and from the beginning (`octets`, `values`); with four harmed segments at most, and no
/// line by which the path dies or its address is taken back, no end dies (`few_octets`, `few_values`).
pub fn patient_texts_deliver()
    ensures ends_octets { PatientTextsEnd octets }
    ensures ends_values { PatientTextsEnd values }
    ensures few_octets { FewLossesFinishByText octets }
    ensures few_values { FewLossesFinishByText values }
    ensures octets { PatientTextEnds octets }
    ensures values { PatientTextEnds values }
{}

/// A law: over one path both files are delivered after 10,800 rounds, 23 for each full segment of either file, and 3,150 for each line by which a
/// segment is lost or late, where the script's text tells that (`finish`); until then the connection goes on, as no reader is told of an abort and the path
/// lives (`go_on`).
///
/// The script has one path, and is mild. Four lines at most lose or delay a segment; none speaks of a whole direction; by none the path dies, or its
/// address is taken back. Where one loses, delays or repeats one of A's first eight segments, A's file fits the first window
/// (`patient_texts_deliver`), and each full segment of that counts as such a line besides. It is said of fewer than 2^64 - 1 turns, in any lawful
/// order of steps within the rounds, over links that carry octets. So few are those of a run of whose actors each made fewer than 2^57 steps
/// (`brief`).
pub fn few_texts_deliver()
    ensures finish { FewTextsFinish }
    ensures go_on { FewTextsGoOn }
    ensures brief { FewStepsAreBrief }
{}

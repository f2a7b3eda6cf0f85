//! Pages and their tokens, after the HTML Standard (#tokenization). In each line there is a page before ` ⇒ `, and
//! after it what is printed of its tokens.

/// Text, comments and doctypes (#data-state, #tag-open-state to #end-tag-open-state, #bogus-comment-state to
/// #bogus-doctype-state, #character-reference-state to #numeric-character-reference-end-state).
pub(crate) const ORDINARY: &str = "\
    a<b>c ⇒ |a|<b>|c|\n\
    a<1> ⇒ |a<1>|\n\
    a< ⇒ |a<|\n\
    a</ ⇒ |a</|\n\
    < a> ⇒ |< a>|\n\
    <<a> ⇒ |<|<a>\n\
    a&b ⇒ |a&b|\n\
    &amp;&lt ⇒ |&<|\n\
    &notit;&notin; ⇒ |¬it;∉|\n\
    &#65;&#x42&#X43; ⇒ |ABC|\n\
    &#;&#x;&; ⇒ |&#;&#x;&;|\n\
    &#128;&#0;&#xD800;&#1114112; ⇒ |€���|\n\
    &nesim; ⇒ |≂̸|\n\
    &#38;lt; ⇒ |&lt;|\n\
    </>x ⇒ |x|\n\
    </> ⇒ \n\
    </></></b> ⇒ </b>\n\
    a</>b ⇒ |ab|\n\
    </><a => ⇒ !BadName at 3\n\
    <!doctype html></><b => ⇒ <!html>!BadName at 18\n\
    </ x> ⇒ <!-- x-->\n\
    </1> ⇒ <!--1-->\n\
    </ ⇒ |</|\n\
    </ ? ⇒ !Cut at 0\n\
    <?x> ⇒ <!--?x-->\n\
    <?> ⇒ <!--?-->\n\
    <!--a-->b ⇒ <!--a-->|b|\n\
    <!--> ⇒ <!---->\n\
    <!--->b ⇒ <!---->|b|\n\
    <!----> ⇒ <!---->\n\
    <!----!>b ⇒ <!---->|b|\n\
    <!--a--!>b ⇒ <!--a-->|b|\n\
    <!--a--b--> ⇒ <!--a--b-->\n\
    <!--a---> ⇒ <!--a--->\n\
    <!--a--!--> ⇒ <!--a--!-->\n\
    <!--<!--a--> ⇒ <!--<!--a-->\n\
    <!---a->--> ⇒ <!---a->-->\n\
    <!-a> ⇒ <!---a-->\n\
    <!a> ⇒ <!--a-->\n\
    <!> ⇒ <!---->\n\
    <!--a ⇒ !Cut at 0\n\
    <!--a--! ⇒ !Cut at 0\n\
    a<! ⇒ |a|!Cut at 1\n\
    <![CDATA[a]]> ⇒ <!--[CDATA[a]]-->\n\
    <!DOCTYPE html> ⇒ <!html>\n\
    <!doctypehtml> ⇒ <!html>\n\
    <!DocType\tHTML > ⇒ <!html>\n\
    <!DOCTYPE html SYSTEM 'about:legacy-compat'> ⇒ <!legacy>\n\
    <!DOCTYPE html system\"about:legacy-compat\" > ⇒ <!legacy>\n\
    <!doctype x> ⇒ !BadDoctype at 0\n\
    <!doctype htmlSYSTEM\"about:legacy-compat\"> ⇒ !BadDoctype at 0\n\
    <!doctype html PUBLIC \"x\"> ⇒ !BadDoctype at 0\n\
    a<!doctype html ⇒ |a|!Cut at 1\n";

/// Tags and their attributes (#tag-name-state and #before-attribute-name-state to #self-closing-start-tag-state).
pub(crate) const TAGS: &str = "\
    <DIV CLASS=A> ⇒ <div class=[A]>\n\
    <br/> ⇒ <br/>\n\
    <br / > ⇒ <br>\n\
    <br//> ⇒ <br/>\n\
    <a/b=c//> ⇒ <a b=[c//]>\n\
    <a b=\"c\"d/> ⇒ <a b=[c] d=[]/>\n\
    <A B=1 b=2> ⇒ <a b=[1]>\n\
    <a b=1 B=2 c=3 b=4> ⇒ <a b=[1] c=[3]>\n\
    <a b> ⇒ <a b=[]>\n\
    <a b c> ⇒ <a b=[] c=[]>\n\
    <a/b/c> ⇒ <a b=[] c=[]>\n\
    <a\tb\t=\tc\t> ⇒ <a b=[c]>\n\
    <a b= > ⇒ <a b=[]>\n\
    <a b=> ⇒ <a b=[]>\n\
    <a b=/> ⇒ <a b=[/]>\n\
    <a b='c'/> ⇒ <a b=[c]/>\n\
    <a b='>\"'> ⇒ <a b=[>\"]>\n\
    <a b=\"'>\"> ⇒ <a b=['>]>\n\
    <a b=c'd> ⇒ <a b=[c'd]>\n\
    <a b=c=d> ⇒ <a b=[c=d]>\n\
    <a b==c> ⇒ <a b=[=c]>\n\
    <a b=<> ⇒ <a b=[<]>\n\
    <a b='x'c='y'> ⇒ <a b=[x] c=[y]>\n\
    <a b='é'> ⇒ <a b=[é]>\n\
    <a1-b:c.d_e> ⇒ <a1-b:c.d_e>\n\
    <a@b> ⇒ !BadName at 0\n\
    x<aé> ⇒ |x|!BadName at 1\n\
    <a =x> ⇒ !BadName at 0\n\
    <a b/=c> ⇒ !BadName at 0\n\
    <a b'c=d> ⇒ !BadName at 0\n\
    <a b<c> ⇒ !BadName at 0\n\
    <a b=\"c\"=\"d\"> ⇒ !BadName at 0\n\
    <a ⇒ !Cut at 0\n\
    x<a b='> ⇒ |x|!Cut at 1\n\
    <a b=c/ ⇒ !Cut at 0\n\
    </A> ⇒ </a>\n\
    </a b=c> ⇒ </a>\n\
    </a/> ⇒ </a>\n\
    </a b='>'c> ⇒ </a>\n\
    </a ⇒ !Cut at 0\n\
    <!doctype html><b></b \"x> ⇒ <!html><b>!BadName at 18\n\
    <a b=&amp;c> ⇒ <a b=[&c]>\n\
    <a b=&ampc> ⇒ <a b=[&ampc]>\n\
    <a b=&amp=c> ⇒ <a b=[&amp=c]>\n\
    <a b=&amp1> ⇒ <a b=[&amp1]>\n\
    <a b=&amp> ⇒ <a b=[&]>\n\
    <a b='&amp-'> ⇒ <a b=[&-]>\n\
    <a b=&amp;=> ⇒ <a b=[&=]>\n\
    <a b=&notin;> ⇒ <a b=[∉]>\n\
    <a b=&notit;> ⇒ <a b=[&notit;]>\n\
    <a b=&#65c> ⇒ <a b=[Ac]>\n\
    <a b=&#x41g> ⇒ <a b=[Ag]>\n\
    <a b=\"&#x41;&lt;&\"> ⇒ <a b=[A<&]>\n";

/// The texts of title, textarea, style, iframe and script, and text in SVG (#rcdata-state to #script-data-state,
/// #rcdata-less-than-sign-state to #script-data-double-escape-end-state, #cdata-section-state to
/// #cdata-section-end-state).
pub(crate) const ELEMENTS: &str = "\
    <title>a<b>&amp;</b></TITLE >c ⇒ <title>|a<b>&</b>|</title>|c|\n\
    <title>&lt;&lt</title> ⇒ <title>|<<|</title>\n\
    <title>&not</title> ⇒ <title>|¬|</title>\n\
    <title>x</title  ⇒ <title>|x|!Cut at 8\n\
    <title>x ⇒ <title>!Cut at 7\n\
    <title>&amp;x</titles> ⇒ <title>!Cut at 7\n\
    <title> ⇒ <title>\n\
    <title></title =>c ⇒ <title>!BadName at 7\n\
    <textarea></textareas>&lt</textarea> ⇒ <textarea>|</textareas><|</textarea>\n\
    <textarea><!--</textarea>--> ⇒ <textarea>|<!--|</textarea>|-->|\n\
    <title>a</title><textarea>b&amp;c</title></textarea> ⇒ <title>|a|</title><textarea>|b&c</title>|</textarea>\n\
    <style>a&amp;<b></style> ⇒ <style>|a&amp;<b>|</style>\n\
    <style><!--</style> ⇒ <style>|<!--|</style>\n\
    <style></ style></style ⇒ <style>!Cut at 7\n\
    <iframe></IFRAME/>a ⇒ <iframe></iframe>|a|\n\
    <script>a<b&amp;</script> ⇒ <script>|a<b&amp;|</script>\n\
    <script><!--<script></script>--></script> ⇒ <script>|<!--<script></script>-->|</script>\n\
    <script><!--<script></script>--> ⇒ <script>!Cut at 8\n\
    <script><!--</script>--> ⇒ <script>|<!--|</script>|-->|\n\
    <script><!--><script></script>x ⇒ <script>|<!--><script>|</script>|x|\n\
    <script><!--<script>--></script> ⇒ <script>|<!--<script>-->|</script>\n\
    <script><!--<scripts></script> ⇒ <script>|<!--<scripts>|</script>\n\
    <script><!--<SCRIPT/></Script></script> ⇒ <script>|<!--<SCRIPT/></Script>|</script>\n\
    <script><script></script> ⇒ <script>|<script>|</script>\n\
    <svg><![CDATA[a<b>&amp;]]></svg> ⇒ <svg>|a<b>&amp;|</svg>\n\
    <svg><![CDATA[]]></svg> ⇒ <svg>||</svg>\n\
    <svg><![CDATA[a]>b]]]></svg> ⇒ <svg>|a]>b]|</svg>\n\
    <svg><![CDATA[a</svg> ⇒ <svg>!Cut at 5\n\
    <svg><![cdata[a]]></svg> ⇒ <svg><!--[cdata[a]]--></svg>\n\
    <svg><title>a<b></title></svg> ⇒ <svg><title>|a|<b></title></svg>\n";
